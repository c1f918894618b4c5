// Test vectors: each line shows a case and the answer that came, and the file `stdout` has the answers that are expected.
#![tactic(auto)]

use fields::{Byte, Doubled, Field, P251};
use scheme::{Figures, Pair, deal, figures};
use std::io;

// The numbers n, k, t and d that the call `figures` is asked about.
const FIGURES: [[u64; 4]; 14] = [
    [33, 1, 0, 1],
    [0, 0, 0, 0],
    [5, 0, 0, 1],
    [5, 6, 0, 1],
    [5, 3, 1, 1],
    [5, 4, 1, 0],
    [5, 4, 1, 65],
    [5, 4, 1, 64],
    [32, 31, 10, 64],
    [32, 32, 11, 1],
    [u64::MAX, u64::MAX, u64::MAX, u64::MAX],
    [32, u64::MAX, u64::MAX, u64::MAX],
    [32, 32, u64::MAX, u64::MAX],
    [32, 32, 10, u64::MAX],
];

// What the call `deal` is given over p251 with n = 5, k = 4, t = 1 and d = 1: three lists of codes, and how many pairs there is
// room for.
#[derive(Clone, Copy)]
struct Case {
    name: &'static str,
    key: &'static [u64],
    values: &'static [u64],
    tags: &'static [u64],
    room: usize,
}

// The worked example; each case tells where it differs from it.
const WORKED: Case = Case {
    name: "the worked example",
    key: &[7],
    values: &[1, 0, 2],
    tags: &[5, 3],
    room: 5,
};

// Every refusal of the call, and dealings.
const DEALINGS: [Case; 10] = [
    Case {
        name: "a key symbol too many",
        key: &[7, 7],
        ..WORKED
    },
    Case {
        name: "a value coefficient too few",
        values: &[1, 0],
        ..WORKED
    },
    Case {
        name: "a tag coefficient too few",
        tags: &[5],
        ..WORKED
    },
    Case {
        name: "a pair too few",
        room: 4,
        ..WORKED
    },
    Case {
        name: "key symbol 251",
        key: &[251],
        ..WORKED
    },
    Case {
        name: "value coefficient 251",
        values: &[251, 0, 2],
        ..WORKED
    },
    Case {
        name: "tag coefficient 63001",
        tags: &[5, 63001],
        ..WORKED
    },
    Case {
        name: "highest value coefficient 0",
        values: &[1, 2, 0],
        ..WORKED
    },
    Case {
        name: "largest codes",
        key: &[250],
        values: &[250, 250, 250],
        tags: &[63000, 63000],
        ..WORKED
    },
    Case {
        name: "highest tag coefficient 0",
        tags: &[5, 0],
        ..WORKED
    },
];

fn main(rt: HostRuntime) -> io::Result<()> {
    products(&rt)?;
    inverses(&rt)?;
    for [n, k, t, d] in FIGURES {
        show_figures(&rt, n, k, t, d)?;
    }
    let f = figures(5, 4, 1, 1).map_err(|_| refused())?;
    for case in &DEALINGS {
        show_dealing(&rt, &f, case)?;
    }
    dealt_over_byte(&rt)
}

// The error where none can come: these figures and this key pass their questions, and these numbers are codes.
fn refused() -> io::Error {
    io::Error::other("refused")
}

// The products of FIPS 197, section 4.2, and squares of -1 and of y.
fn products(rt: &HostRuntime) -> io::Result<()> {
    for b in [0x83, 0x13, 0x02, 0x04, 0x08, 0x10] {
        let c = product::<Byte>(0x57, b).ok_or_else(refused)?;
        println!(rt; "byte 57*{b:02x}={c:02x}")?;
    }
    show_square::<P251>(rt, "p251", 250)?;
    show_square::<Doubled<P251>>(rt, "doubled p251", 251)?;
    show_square::<Doubled<Byte>>(rt, "doubled byte", 256)
}

// The code of a·b, or nothing where a or b is no code.
fn product<F: Field>(a: u64, b: u64) -> Option<u64> {
    let x = F::from_code(a)?;
    let y = F::from_code(b)?;
    Some(F::to_code(F::mul(x, y)))
}

// The code of a·a.
fn show_square<F: Field>(rt: &HostRuntime, name: &str, a: u64) -> io::Result<()> {
    let c = product::<F>(a, a).ok_or_else(refused)?;
    println!(rt; "{name} {a}*{a}={c}")
}

// The inverses in each field.
fn inverses(rt: &HostRuntime) -> io::Result<()> {
    show_inverses::<Byte>(rt, "byte")?;
    show_inverses::<P251>(rt, "p251")?;
    show_inverses::<Doubled<Byte>>(rt, "doubled byte")?;
    show_inverses::<Doubled<P251>>(rt, "doubled p251")
}

// How many elements times their inverses give one, and what the inverse of zero is.
fn show_inverses<F: Field>(rt: &HostRuntime, name: &str) -> io::Result<()> {
    let size = F::size();
    // a `fold`: through `filter` and `count` the loop takes half as long again
    let ones = (0..size).fold(0u64, |ones, n| {
        ones.wrapping_add(u64::from(times_inverse::<F>(n) == Some(1)))
    });
    let zero = F::to_code(F::inv(F::zero()));
    let past = F::from_code(size).is_some();
    println!(rt;
        "{name} size={size} ones={ones} inverse of zero={zero} code {size} is read: {past}"
    )
}

// The code of an element times its inverse, or nothing where n is no code.
fn times_inverse<F: Field>(n: u64) -> Option<u64> {
    let x = F::from_code(n)?;
    Some(F::to_code(F::mul(x, F::inv(x))))
}

// Asks about figures, and shows the answer.
fn show_figures(rt: &HostRuntime, n: u64, k: u64, t: u64, d: u64) -> io::Result<()> {
    match figures(n, k, t, d) {
        Ok(f) => println!(rt; "figures {},{},{},{} pass", f.n(), f.k(), f.t(), f.d()),
        Err(fault) => println!(rt; "figures {n},{k},{t},{d} refused={}", fault.number()),
    }
}

// Makes the call `deal`, and shows the answer; refused, also whether the pairs are as they were.
fn show_dealing(rt: &HostRuntime, f: &Figures, case: &Case) -> io::Result<()> {
    let was = Pair { value: 99, tag: 99 };
    let mut buffer = [was; 5];
    let room = case.room.min(buffer.len());
    let name = case.name;
    match deal::<P251>(f, case.key, case.values, case.tags, &mut buffer[..room]) {
        Ok(count) => println!(rt; "{name}: dealt={count} {buffer:?}"),
        Err(fault) => {
            let untouched = buffer == [was; 5];
            println!(rt; "{name}: refused={} untouched={untouched}", fault.number())
        }
    }
}

// A dealing over byte with two places, whose pairs were computed by another program.
fn dealt_over_byte(rt: &HostRuntime) -> io::Result<()> {
    let f = figures(7, 5, 1, 2).map_err(|_| refused())?;
    let mut shares = [Pair::default(); 14];
    let key = [0x2a, 0xff];
    let values = [1, 2, 3, 4, 0x80, 0, 0x1b, 0xfe];
    let tags = [0x1234, 0xabcd, 0xffff, 0x0100];
    let count = deal::<Byte>(&f, &key, &values, &tags, &mut shares).map_err(|_| refused())?;
    println!(rt; "byte dealt={count} {shares:?}")
}
