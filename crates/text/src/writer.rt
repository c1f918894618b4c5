// The writer of card texts.
ghost use Rattle.std.specs.Prelude.{◌≡◌, ◌≤◌, length, IfOk};
ghost use Rattle.runs.specs.Cards.{card_refusal};
ghost use Rattle.sitting.specs.Faults.{card_told};
ghost use Rattle.text.specs.Card.{card_text, codes_of, write_card_answer};
ghost use Rattle.text.specs.Faults.{write_number};
ghost use Rattle.text.specs.Shown.{write_told};
ghost use Rattle.text.specs.declared.types.WriteFault.TheVariants.{Card};

use crate::putting::CardText;
use crate::types::{FieldName, Half, Key, WriteFault};
use fields::{Byte, P251};
use scheme::{Figures, Pair};
use sitting::{CardFault, ask_card};

impl From<CardFault> for WriteFault {
    ghost from_gives = { λ e r. r ≡ Card e };

    fn from(e: CardFault) -> WriteFault {
        WriteFault::Card(e)
    }
}

impl WriteFault {
    // the number of the refusal
    pub fn number(&self) -> u32
        ensures { result ≡ write_number self.now }
    {
        match self {
            WriteFault::Card(e) => e.number(),
            WriteFault::Buffer => 50,
        }
    }
}

// Puts the questions about a card over the field of this name. (`ask_card` takes the field as a type, so a match names each.)
fn ask_named(
    field: FieldName,
    figures: &Figures,
    number: u64,
    card: &[Pair],
) -> Result<(), CardFault>
    ensures { card_told result ≡ card_refusal (codes_of field) figures.now number card.now }
{
    match field {
        FieldName::Byte => ask_card::<Byte>(figures, number, card),
        FieldName::P251 => ask_card::<P251>(figures, number, card),
    }
}

// The text of a card.
fn text_of(field: FieldName, figures: &Figures, number: u64, card: &[Pair]) -> CardText
    requires { length (card_text field figures.now number card.now) ≤ 1024 }
    ensures { result ≡ card_text field figures.now number card.now }
{
    let mut text = CardText::new();
    text.push_scheme_lines(field, figures);
    text.push_number_line(Key::Card, number);
    text.push_list_line(Key::Values, Half::Value, card);
    text.push_list_line(Key::Tags, Half::Tag, card);
    text
}

// Writes the text of a card to the front of the buffer, and answers its length; refused, it leaves the buffer as it was.
// (Its parameters are promised as they are.)
pub fn write_card(
    field: FieldName,
    figures: &Figures,
    number: u64,
    card: &[Pair],
    buffer: &mut [u8],
) -> Result<usize, WriteFault>
    ensures told { (write_told result, buffer.new) ≡ write_card_answer field figures.now number card.now buffer.old }
    ensures bound { IfOk result (λ length. length ≤ 1024) }
{
    ask_named(field, figures, number, card)?;
    if buffer.len() < 1024 {
        return Err(WriteFault::Buffer);
    }
    let text = text_of(field, figures, number, card);
    let bytes = text.as_slice();
    buffer[..bytes.len()].copy_from_slice(bytes);
    Ok(bytes.len())
}
