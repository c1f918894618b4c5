// Deals a worked example over p251 and prints what it does: the figures, and then each card's number, value and tag.
#![tactic(auto)]

use fields::P251;
use scheme::{Pair, deal, figures};
use std::io;

// The key, and the coefficients that a dealer would draw by chance.
const KEY: [u64; 1] = [7];

const VALUES: [u64; 3] = [1, 0, 2];

const TAGS: [u64; 2] = [5, 3];

fn main(rt: HostRuntime) -> io::Result<()> {
    // a refusal cannot come here
    let passed = figures(5, 4, 1, 1).map_err(|_| io::Error::other("figures are refused"))?;
    let (n, k, t, d) = (passed.n(), passed.k(), passed.t(), passed.d());
    println!(rt; "field=p251 n={n} k={k} t={t} d={d}")?;
    let mut cards = [Pair::default(); 5];
    deal::<P251>(&passed, &KEY, &VALUES, &TAGS, &mut cards).map_err(|_| io::Error::other(
        "the dealing is refused",
    ))?;
    print_cards(&rt, &cards)
}

// A line for each card.
fn print_cards(rt: &HostRuntime, cards: &[Pair]) -> io::Result<()> {
    for (number, Pair { value, tag }) in (1..).zip(cards) {
        println!(rt; "card={number} value={value} tag={tag}")?;
    }
    Ok(())
}
