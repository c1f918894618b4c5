// The reader and the writer of card texts on texts and cards at the boundary of every question. Each line shows a case and the
// answer that came, and the file `stdout` has the answers that are expected.
#![tactic(auto)]

mod cases;
mod judging;
mod tables;

use cases::{CASES, Case, DEALT, LARGEST};
use judging::{WAS, are_untouched, is_read_as, is_written_as};
use scheme::{Figures, Pair, figures};
use std::io;
use std::str::from_utf8;
use tables::{CARDS, CONTENTS, ENDS, FIGURES, KEYS, LISTS, OVER_BYTE, READ, Row};
use text::{CardRead, CardReader, FieldName, write_card};

// A text that is read.
const WHOLE: &[u8] = b"field=p251\nn=5\nk=4\nt=1\nd=2\ncard=2\nv=25,250\ng=1586,63000\n";

// Texts and their names, for the parts that the reader shows of one that is read, of two that are refused behind the lines, and
// of one that is refused in line 8.
const PARTS: [(&str, &[u8]); 4] = [
    ("a whole text", WHOLE),
    (
        "too many tags",
        b"field=byte\nn=5\nk=4\nt=1\nd=1\ncard=2\nv=256\ng=0,1,9999999999\n",
    ),
    (
        "a byte follows",
        b"field=byte\nn=0\nk=4\nt=1\nd=1\ncard=2\nv=7,8\ng=9\n\n",
    ),
    (
        "no line end",
        b"field=byte\nn=5\nk=4\nt=1\nd=1\ncard=2\nv=7\ng=9",
    ),
];

fn main(rt: HostRuntime) -> io::Result<()> {
    for rows in [
        &READ[..],
        &KEYS,
        &CONTENTS,
        &LISTS,
        &ENDS,
        &FIGURES,
        &CARDS,
        &OVER_BYTE,
    ] {
        for row in rows {
            show_text(&rt, row)?;
        }
    }
    lengths(&rt)?;
    parts(&rt)?;
    worked_example(&rt)?;
    show_cases(&rt, &figures(5, 4, 1, 2).map_err(|_| refused())?, &CASES)?;
    show_cases(
        &rt,
        &figures(32, 31, 10, 64).map_err(|_| refused())?,
        &LARGEST,
    )
}

// The error of a refusal that cannot come: these figures, texts and cards pass their questions.
fn refused() -> io::Error {
    io::Error::other("refused")
}

// ---- the reader: on the tables of texts, on texts of about 1,024 bytes, and the parts that it shows

// Shows what the reader answers to a text: of one that is read, whether the writer gives it back; of one that is refused, whether
// the refusal is the one that the table expects.
fn show_text(rt: &HostRuntime, (name, text, refusal): &Row) -> io::Result<()> {
    match CardReader::new(text).read() {
        Ok(card) => {
            let length = text.len();
            let back = is_written_as(&card, text);
            println!(rt; "{name}: read, {length} bytes, written back={back}")
        }
        Err(fault) => {
            // taken out before printing, since both are compared with the table
            let (number, line) = (fault.number(), fault.line());
            let expected = *refusal == Some((number, line));
            println!(rt; "{name}: refused={number} line={line} expected={expected}")
        }
    }
}

// Texts of 1,024 and of 1,025 bytes: what follows a whole text is refused only where the length passes.
fn lengths(rt: &HostRuntime) -> io::Result<()> {
    show_lengths(rt, "line ends", &[b'\n'; 1025])?;
    show_lengths(rt, "a text and line ends", &with_line_ends())
}

// A whole text, and line ends up to 1,025 bytes.
fn with_line_ends() -> [u8; 1025] {
    let mut text = [b'\n'; 1025];
    text[..WHOLE.len()].copy_from_slice(WHOLE);
    text
}

// Shows what the reader answers to all bytes but the last, and to all.
fn show_lengths(rt: &HostRuntime, name: &str, bytes: &[u8; 1025]) -> io::Result<()> {
    for text in [&bytes[..1024], bytes] {
        let length = text.len();
        match CardReader::new(text).read() {
            Ok(_) => println!(rt; "{name}, {length} bytes: read")?,
            Err(fault) => {
                println!(rt;
                    "{name}, {length} bytes: refused={} line={}",
                    fault.number(),
                    fault.line()
                )?
            }
        }
    }
    Ok(())
}

// The two lists as parts of a text, and what a whole text tells.
fn parts(rt: &HostRuntime) -> io::Result<()> {
    for (name, text) in PARTS {
        let reader = CardReader::new(text);
        println!(rt;
            "{name}: values={} tags={}",
            reader.values().map_or("none", text_of),
            reader.tags().map_or("none", text_of)
        )?;
    }
    let card = CardReader::new(WHOLE).read().map_err(|_| refused())?;
    show_card(rt, &card)
}

// The bytes as text, for printing.
fn text_of(bytes: &[u8]) -> &str {
    from_utf8(bytes).unwrap_or("no text")
}

// Shows all that a text tells.
fn show_card(rt: &HostRuntime, card: &CardRead) -> io::Result<()> {
    let (number, pairs) = (card.number(), card.card());
    let field = text_of(card.field().word());
    let f = card.figures();
    let (n, k, t, d) = (f.n(), f.k(), f.t(), f.d());
    println!(rt; "a whole text: field={field} figures={n},{k},{t},{d} card={number} {pairs:?}")
}

// ---- the writer: the worked example, every refusal at its boundary, and the largest texts

// Shows the cases with figures that passed.
fn show_cases(rt: &HostRuntime, f: &Figures, cases: &[Case]) -> io::Result<()> {
    for case in cases {
        show_case(rt, f, case)?;
    }
    Ok(())
}

// Writes a card to the front of a buffer, as far as the case has room. Shows the answer, whether the text is read as that card,
// and whether the other bytes are as they were.
fn show_case(rt: &HostRuntime, f: &Figures, case: &Case) -> io::Result<()> {
    let mut buffer = [WAS; 1100];
    let room = case.room.min(buffer.len());
    match write_card(case.field, f, case.number, case.card, &mut buffer[..room]) {
        Ok(length) => {
            let (text, rest) = buffer.split_at(length);
            let back = is_read_as(text, f, case);
            let untouched = are_untouched(rest);
            println!(rt; "{case} length={length} read back={back} untouched={untouched}")
        }
        Err(fault) => {
            let untouched = are_untouched(&buffer);
            println!(rt; "{case} refused={} untouched={untouched}", fault.number())
        }
    }
}

// Writes the five cards of the worked example, and prints the text of card 2.
fn worked_example(rt: &HostRuntime) -> io::Result<()> {
    let f = figures(5, 4, 1, 1).map_err(|_| refused())?;
    for (number, pair) in (1..).zip(DEALT) {
        let case = Case {
            name: "worked example",
            field: FieldName::P251,
            number,
            card: &[pair],
            room: 1024,
        };
        show_case(rt, &f, &case)?;
    }
    print_text(rt, &f, 2, &DEALT[1..2])
}

// Prints the text of a card over p251.
fn print_text(rt: &HostRuntime, f: &Figures, number: u64, card: &[Pair]) -> io::Result<()> {
    let mut buffer = [WAS; 1024];
    let length = write_card(FieldName::P251, f, number, card, &mut buffer).map_err(|_| refused())?;
    print!(rt; "{}", text_of(&buffer[..length]))
}
