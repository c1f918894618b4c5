// Plays a script of calls on sittings and prints each call with its answer; the file `stdout` has the answers that are expected.
#![tactic(auto)]

ghost use Rattle.std.specs.Prelude.{◌≡◌, length, replicate};

use fields::{Byte, Doublable, P251};
use scheme::{Pair, deal, figures};
use sitting::{Gathering, KeyHolder, confirm_key};
use std::io;

// A call on a sitting: a participant's number, and for `present` a card and what is to be seen on it.
#[derive(Clone, Copy)]
enum Call<'a> {
    Present(&'static str, u64, &'a [Pair]),
    Withdraw(u64),
}

fn main(rt: HostRuntime) -> io::Result<()> {
    over_p251(&rt)?;
    over_byte(&rt)?;
    keys(&rt)
}

// The error of a refusal that cannot come: figures and a key that pass their questions.
fn refused() -> io::Error {
    io::Error::other("refused")
}

// Makes the calls of a script, and prints each with its answer.
fn play<F: Doublable>(
    rt: &HostRuntime,
    sitting: &mut Gathering<F>,
    script: &[Call],
) -> io::Result<()> {
    for call in script {
        match *call {
            Call::Present(what, i, card) => match sitting.present(i, card) {
                Ok(lying) => println!(rt; "present {i} ({what}): lying={lying}")?,
                Err(fault) => println!(rt; "present {i} ({what}): refused={}", fault.number())?,
            },
            Call::Withdraw(i) => match sitting.withdraw(i) {
                Ok(lying) => println!(rt; "withdraw {i}: lying={lying}")?,
                Err(fault) => println!(rt; "withdraw {i}: refused={}", fault.number())?,
            },
        }
    }
    Ok(())
}

// A pair by its two codes.
fn pair(value: u64, tag: u64) -> Pair {
    Pair { value, tag }
}

// The cards of key 7 over p251, and others.
fn over_p251(rt: &HostRuntime) -> io::Result<()> {
    let passed = figures(5, 4, 1, 1).map_err(|_| refused())?;
    let mut cards = [pair(0, 0); 5];
    deal::<P251>(&passed, &[7], &[1, 0, 2], &[5, 3], &mut cards).map_err(|_| refused())?;
    println!(rt; "p251 n=5 k=4 t=1 d=1")?;
    let mut sitting = Gathering::<P251>::new(passed);
    for (i, card) in (1..).zip(&cards) {
        play(rt, &mut sitting, &[Call::Present("as dealt", i, &[*card])])?;
    }
    refusals(rt, &mut sitting)?;
    withdrawals(rt, &mut sitting)?;
    println!(rt; "seal")?;
    let sealed = sitting.seal();
    println!(rt; "reopen")?;
    let mut sitting = sealed.reopen();
    play(
        rt,
        &mut sitting,
        &[
            Call::Present("again", 2, &[pair(26, 1586)]),
            Call::Present("still lying", 1, &[pair(10, 788)]),
        ],
    )
}

// Each question in its turn, and two questions at once.
fn refusals(rt: &HostRuntime, sitting: &mut Gathering<P251>) -> io::Result<()> {
    let fit = pair(250, 63000);
    play(
        rt,
        sitting,
        &[
            Call::Present("too low a number", 0, &[fit]),
            Call::Present("too high a number", 6, &[fit]),
            Call::Present("the highest number", u64::MAX, &[]),
            Call::Present("a card of no pair", 2, &[]),
            Call::Present("a pair too many", 2, &[fit, pair(251, 0)]),
            Call::Present("value 251", 2, &[pair(251, 63000)]),
            Call::Present("tag 63001", 2, &[pair(250, 63001)]),
            Call::Present("value 250 and tag 63000, lying already", 2, &[fit]),
        ],
    )
}

// Cards that lie are withdrawn, and others do not lie.
fn withdrawals(rt: &HostRuntime, sitting: &mut Gathering<P251>) -> io::Result<()> {
    play(
        rt,
        sitting,
        &[
            Call::Withdraw(0),
            Call::Withdraw(6),
            Call::Withdraw(2),
            Call::Withdraw(2),
            Call::Withdraw(5),
            Call::Present("value 250 and tag 63000", 5, &[pair(250, 63000)]),
            Call::Withdraw(5),
        ],
    )
}

// The largest figures, over byte.
fn over_byte(rt: &HostRuntime) -> io::Result<()> {
    let passed = figures(32, 31, 10, 64).map_err(|_| refused())?;
    println!(rt; "byte n=32 k=31 t=10 d=64")?;
    let mut sitting = Gathering::<Byte>::new(passed);
    let highest = [pair(255, 65535); 64];
    let mut value_256 = [pair(0, 0); 64];
    value_256[63].value = 256;
    let mut tag_65536 = [pair(0, 0); 64];
    tag_65536[63].tag = 65536;
    play(
        rt,
        &mut sitting,
        &[
            Call::Present("all 64 pairs the highest", 32, &highest),
            Call::Present("63 pairs", 1, &highest[..63]),
            Call::Present("the last value 256", 1, &value_256),
            Call::Present("the last tag 65536", 1, &tag_65536),
            Call::Present("all pairs 0", 1, &[pair(0, 0); 64]),
            Call::Withdraw(32),
            Call::Withdraw(32),
        ],
    )
}

// Keys that are used and then are blank.
fn keys(rt: &HostRuntime) -> io::Result<()> {
    let mut key = [7, 8];
    show_key(rt, &mut key)?;
    print_symbols(rt, &key)?;
    confirm(rt, [7, 8], &[7, 8])?;
    confirm(rt, [7, 8], &[7, 9])?;
    confirm(rt, [7, 8], &[7])
}

// Prints the symbols. Whether or not all could be printed, the buffer is blank afterwards.
fn show_key(rt: &HostRuntime, key: &mut [u64]) -> io::Result<()>
    ensures { key.new ≡ replicate (length key.old) 0 }
{
    let held = KeyHolder { key };
    println!(rt; "show the key")?;
    print_symbols(rt, held.key)
}

// A line for each symbol.
fn print_symbols(rt: &HostRuntime, symbols: &[u64]) -> io::Result<()> {
    for (j, symbol) in symbols.iter().enumerate() {
        println!(rt; "place {j}: {symbol}")?;
    }
    Ok(())
}

// Confirms a key, and shows the answer and the buffer afterwards.
fn confirm(rt: &HostRuntime, mut key: [u64; 2], expected: &[u64]) -> io::Result<()> {
    let same = confirm_key(&mut key, expected);
    let [first, second] = key;
    println!(rt; "confirm: {same}, then {first},{second}")
}
