// Decodes 64 places of 32 points with t = 10 and 10 errors each, over both doubled fields: the work on tags of one opening of the
// largest size. With an argument it prints how long that took; with none it prints only what it decoded, which the gate compares.
#![tactic(auto)]

use fields::{Byte, Doubled, Field, P251};
use scheme::{Point, decode};
use std::time::Instant;
use std::{array, env, io};

fn main(rt: HostRuntime) -> io::Result<()> {
    let timed = env::args(&rt)?.count() > 1;
    measure::<Doubled<P251>>(&rt, "doubled p251", timed)?;
    measure::<Doubled<Byte>>(&rt, "doubled byte", timed)
}

// Decodes the places over a field, and shows how many have an answer, and with `timed` how long that took.
fn measure<F: Field>(rt: &HostRuntime, name: &str, timed: bool) -> io::Result<()> {
    let start = Instant::now(rt)?;
    let decoded = (0..64).filter(|place| is_decoded::<F>(*place)).count();
    let micros = start.elapsed(rt)?.as_micros();
    println!(rt; "{name} decoded={decoded}")?;
    if timed {
        println!(rt; "{name} microseconds={micros}")?;
    }
    Ok(())
}

// The element whose code is the remainder of n by the field's size. `decoding` has the like of this function and of `source`, each one
// expression; a crate of its own would be longer.
fn element<F: Field>(n: u64) -> F::Elem {
    F::from_code(n % F::size()).unwrap()
}

// The value at x of a polynomial of eleven coefficients that depends on the place.
fn source<F: Field>(place: u64, x: F::Elem) -> F::Elem {
    (0..11).fold(F::zero(), |y, i| {
        let c = element::<F>((place % 64 + 1) * 40503 + i * 7919);
        F::add(c, F::mul(x, y))
    })
}

// The i-th of the points of a place; up to the thirtieth, the ordinate of every third is one more.
fn point<F: Field>(place: u64, i: u8) -> Point<F::Elem> {
    let x = element::<F>(u64::from(i) * 300 + 11);
    let y = source::<F>(place, x);
    let is_wrong = i % 3 == 1 && i < 30;
    Point {
        x,
        y: if is_wrong { F::add(y, F::one()) } else { y },
    }
}

// Whether there is a polynomial that passes through all but ten of a place's points.
fn is_decoded<F: Field>(place: u64) -> bool {
    let points: [Point<F::Elem>; 32] = array::from_fn(|i| point::<F>(place, i as u8));
    matches!(decode::<F>(&points, 10), Ok(Some(_)))
}
