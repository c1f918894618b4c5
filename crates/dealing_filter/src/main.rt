// Reads a dealing sheet from standard input, deals the key, and prints the texts of the cards one after another.
#![tactic(auto)]

use scheme::Pair;
use std::io;
use std::io::{Read, Write};
use text::{Sheet, SheetFault, read_sheet, write_card};

// one byte more than a sheet may have, which tells that it is too long
const LIMIT: u64 = 16385;

fn main(rt: HostRuntime) -> io::Result<()> {
    let mut sheet_text = Vec::new(rt.alloc());
    rt.stdin().take(LIMIT).read_to_end(&mut sheet_text)?;
    // 32 participants with 64 pairs each, the largest dealing: an array, so that only the sheet's text needs a heap
    let mut cards = [Pair::default(); 2048];
    match deal_text(&sheet_text, &mut cards) {
        Ok(sheet) => print_cards(&rt, &sheet, &cards),
        Err(fault) => println!(rt; "fault={},{}", fault.number(), fault.line()),
    }
}

// Deals what the text tells into the front of the cards.
fn deal_text(sheet_text: &[u8], cards: &mut [Pair; 2048]) -> Result<Sheet, SheetFault> {
    let sheet = read_sheet(sheet_text)?;
    sheet.deal(&mut cards[..sheet.pairs()])?;
    Ok(sheet)
}

// The texts of all cards.
fn print_cards(rt: &HostRuntime, sheet: &Sheet, cards: &[Pair]) -> io::Result<()> {
    let figures = sheet.figures();
    for (number, card) in (1..).zip(cards.chunks(figures.d()).take(figures.n())) {
        print_card(rt, sheet, number, card)?;
    }
    Ok(())
}

// The text of a card.
fn print_card(rt: &HostRuntime, sheet: &Sheet, number: u64, card: &[Pair]) -> io::Result<()> {
    let mut buffer = [0u8; 1024];
    // that a card which was dealt is never refused is not shown: docs/DECISIONS.md
    let length = write_card(sheet.field(), &sheet.figures(), number, card, &mut buffer).map_err(
        |_| io::Error::other("a dealt card is refused"),
    )?;
    rt.stdout().write_all(&buffer[..length])
}
