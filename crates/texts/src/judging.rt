// What a text that was written, and one that was read, is judged by.
ghost use Rattle.std.specs.Prelude.{◌≡◌, length, replicate, Decides};
ghost use Rattle.text.specs.Card.{read_card};
ghost use Rattle.text.specs.Shown.{shown};
ghost use Rattle.texts.specs.Judged.{IsWrittenAs, held, reading_of};

use crate::cases::Case;
use scheme::Figures;
use text::{CardRead, CardReader, write_card};

// What every byte of a buffer is before the writer takes it.
pub const WAS: u8 = 7;

// Whether all bytes are as they were.
pub fn are_untouched(bytes: &[u8]) -> bool
    ensures { Decides result (bytes.now ≡ replicate (length bytes.now) 7) }
{
    bytes.iter().all(|b| *b == WAS)
}

// Whether a buffer has the text at its front, and is as it was behind it.
fn holds(buffer: &[u8], text: &[u8]) -> bool
    ensures { Decides result (buffer.now ≡ held (length buffer.now) text.now) }
{
    buffer.strip_prefix(text).is_some_and(are_untouched)
}

// Whether the writer gives this text for a card that was read, and leaves the bytes behind it as they were.
pub fn is_written_as(card: &CardRead, text: &[u8]) -> bool
    ensures { Decides result (IsWrittenAs card.now text.now) }
{
    let mut buffer = [WAS; 1100];
    let answer = write_card(
        card.field(),
        &card.figures(),
        card.number(),
        card.card(),
        &mut buffer,
    );
    matches!(answer, Ok(length) if length == text.len() && holds(&buffer, text))
}

// Whether a card that was read is the one of the case, with these figures.
fn is_of(read: &CardRead, f: &Figures, case: &Case) -> bool
    ensures { Decides result (shown read.now ≡ reading_of f.now case.now) }
{
    (read.field(), read.figures(), read.number(), read.card())
        == (case.field, *f, case.number, case.card)
}

// Whether the text is read as these figures and the card of the case.
pub fn is_read_as(text: &[u8], f: &Figures, case: &Case) -> bool
    ensures { Decides result (read_card text.now ≡ Ok (reading_of f.now case.now)) }
{
    // a match, since a proof sees nothing of what a closure over a card that was read answers
    match CardReader::new(text).read() {
        Ok(read) => is_of(&read, f, case),
        Err(_) => false,
    }
}
