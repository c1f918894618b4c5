// Decodes points over the doubled fields and prints a table: how many points and errors there were, and whether what came
// is the polynomial that the points were made from. The file `stdout` has what is expected.
#![tactic(auto)]

use fields::{Byte, Doubled, Field, P251};
use scheme::{Point, PointsFault, Polynomial, decode, interpolate, interpolate_at, value_at};
use std::alloc::{AllocError, Global};
use std::io;

// How many points there are, how many wrong ones are borne, and how many are wrong.
const CASES: [(u8, usize, u8); 14] = [
    (1, 0, 0),
    (32, 0, 0),
    (32, 0, 1),
    (4, 1, 0),
    (4, 1, 1),
    (4, 1, 2),
    (31, 10, 0),
    (31, 10, 10),
    (31, 10, 11),
    (32, 10, 0),
    (32, 10, 10),
    (32, 10, 11),
    (33, 10, 0),
    (30, 10, 0),
];

fn main(rt: HostRuntime) -> io::Result<()> {
    table::<Doubled<P251>>(&rt, "doubled p251")?;
    table::<Doubled<Byte>>(&rt, "doubled byte")
}

// The table over a field.
fn table<F: Field>(rt: &HostRuntime, name: &str) -> io::Result<()> {
    println!(rt; "{name}")?;
    for (count, t, errors) in CASES {
        show::<F>(rt, count, t, errors)?;
    }
    for first in [0, 11, 22, 27] {
        show_run::<F>(rt, first)?;
    }
    show_other::<F>(rt)?;
    show_repeated::<F>(rt)?;
    for count in [0, 1, 4, 32, 33] {
        show_interpolation::<F>(rt, count)?;
    }
    Ok(())
}

// ---- the points

// The element whose code is the remainder of n by the field's size.
fn element<F: Field>(n: u64) -> F::Elem {
    F::from_code(n % F::size()).unwrap()
}

// The i-th of some elements that look like chance.
fn mixed<F: Field>(i: u64) -> F::Elem {
    let n = (i % 1000 + 1) * 2654435761;
    element::<F>(n ^ (n >> 13))
}

// The value at x of the polynomial of t + 1 coefficients that the points are made from.
fn source<F: Field>(t: usize, x: F::Elem) -> F::Elem {
    (0..t as u64)
        .chain([999])
        .fold(F::zero(), |y, i| F::add(mixed::<F>(i), F::mul(x, y)))
}

// The i-th of the points; where it is wrong, its ordinate is one more.
fn point<F: Field>(t: usize, i: u8, is_wrong: bool) -> Point<F::Elem> {
    let x = element::<F>(u64::from(i) * 100 + 7);
    let y = source::<F>(t, x);
    Point {
        x,
        y: if is_wrong { F::add(y, F::one()) } else { y },
    }
}

// The first `count` points, with those wrong whose numbers `is_wrong` picks.
fn points<F: Field, W: Fn(u8) -> bool>(
    heap: Global,
    t: usize,
    count: u8,
    is_wrong: W,
) -> Result<Vec<Point<F::Elem>>, AllocError>
    requires { (state : W) (i : _) → W.pre state i }
{
    (0..count)
        .map(|i| point::<F>(t, i, is_wrong(i)))
        .collect(heap)
}

// ---- what came

// Whether y is the source's value at x.
fn is_value<F: Field>(t: usize, x: F::Elem, y: F::Elem) -> bool {
    F::same(y, source::<F>(t, x))
}

// Whether f has the values of the source at forty further abscissae, which tells apart any two of the polynomials here.
fn is_source<F: Field>(f: &Polynomial<F::Elem>, t: usize) -> bool {
    (0..40).all(|i| {
        let x = element::<F>(i * 100 + 8);
        is_value::<F>(t, x, value_at::<F>(f, x))
    })
}

// Whether interpolation through the points has the source's value at a further abscissa.
fn has_value<F: Field>(points: &[Point<F::Elem>], t: usize) -> bool {
    let x = element::<F>(8);
    interpolate_at::<F>(points, x).is_ok_and(|y| is_value::<F>(t, x, y))
}

// The words for an answer: whether the polynomial that came is the source, or that none came, or why the points are refused.
fn told(answer: Result<Option<bool>, PointsFault>) -> &'static str {
    match answer {
        Ok(Some(true)) => "the source",
        Ok(Some(false)) => "another polynomial",
        Ok(None) => "none",
        Err(PointsFault::Count) => "refused: count",
        Err(PointsFault::Repeated) => "refused: repeated",
    }
}

// The words for what decoding the points gives.
fn decoded<F: Field>(points: &[Point<F::Elem>], t: usize) -> &'static str {
    told(decode::<F>(points, t).map(|found| found.map(|f| is_source::<F>(&f, t))))
}

// ---- the lines of the table

// Points with `errors` wrong ones spread over them.
fn show<F: Field>(rt: &HostRuntime, count: u8, t: usize, errors: u8) -> io::Result<()> {
    let list = points::<F, _>(rt.alloc(), t, count, |i| {
        (u16::from(i) * 7 + 3) % u16::from(count.max(1)) < u16::from(errors)
    })?;
    let text = decoded::<F>(&list, t);
    println!(rt; "points={count} t={t} errors={errors}: {text}")
}

// Ten errors one after another among 32 points; after the last point they go on at the first.
fn show_run<F: Field>(rt: &HostRuntime, first: u8) -> io::Result<()> {
    let list = points::<F, _>(rt.alloc(), 10, 32, |i| i.wrapping_sub(first) % 32 < 10)?;
    let text = decoded::<F>(&list, 10);
    println!(rt; "points=32 t=10 errors=10 from={first}: {text}")
}

// Two errors among four points that lie on one line with a right point: that line passes through three of the four.
fn show_other<F: Field>(rt: &HostRuntime) -> io::Result<()> {
    let mut list = points::<F, _>(rt.alloc(), 1, 4, |_| false)?;
    let from = F::neg(point::<F>(1, 1, false).x);
    for p in list.iter_mut().skip(2) {
        p.y = F::add(p.y, F::add(p.x, from));
    }
    let text = decoded::<F>(&list, 1);
    println!(rt; "points=4 t=1 errors=2 on a line: {text}")
}

// Four points, and the third of them again.
fn show_repeated<F: Field>(rt: &HostRuntime) -> io::Result<()> {
    let mut list = points::<F, _>(rt.alloc(), 1, 4, |_| false)?;
    list.push(point::<F>(1, 2, false))?;
    let text = decoded::<F>(&list, 1);
    println!(rt; "points=5 t=1 one twice: {text}")
}

// Interpolation through `count` points of a polynomial with as many coefficients.
fn show_interpolation<F: Field>(rt: &HostRuntime, count: u8) -> io::Result<()> {
    let t = usize::from(count).saturating_sub(1);
    let list = points::<F, _>(rt.alloc(), t, count, |_| false)?;
    let text = told(interpolate::<F>(&list).map(|f| Some(
        is_source::<F>(&f, t) && has_value::<F>(&list, t),
    )));
    println!(rt; "points={count} interpolated: {text}")
}
