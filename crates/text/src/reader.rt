// The reader of card texts.
ghost use Rattle.std.specs.Prelude.{◌≡◌, ◌*◌, ◌≤◌, [], ◌∷◌, length, take, decimal};
ghost use Rattle.scheme.specs.Questions.{all_codes, first_no};
ghost use Rattle.std.specs.Option.{option_map};
ghost use Rattle.text.specs.Card.{answer, card_keys, codes_of, paired, part_of, read_card};
ghost use Rattle.text.specs.Faults.{fault_told, refusal_told};
ghost use Rattle.text.specs.Lines.{lines as lines_of};
ghost use Rattle.text.specs.Numbers.{numbers_in};
ghost use Rattle.text.specs.Parts.{lines_told, list_text};
ghost use Rattle.text.specs.Shown.{read_told, shown};

use crate::lines::take_lines;
use crate::types::{CardLines, CardRead, CardReader, FieldName, Key, TextFault};
use fields::{Byte, Doublable, Doubled, P251};
use scheme::{Figures, Pair, are_codes, figures};

// Asks whether the values are codes of the field, and the tags codes of the doubled field. (The field's own code reader decides,
// so the field is a type.)
fn ask_codes<F: Doublable>(values: &[u64], tags: &[u64]) -> Result<(), TextFault>
    ensures { refusal_told result ≡ first_no ((all_codes F.Field.codes.size values.now, (59, 7)) ∷ (all_codes (F.Field.codes.size * F.Field.codes.size) tags.now, (59, 8)) ∷ []) }
{
    if !are_codes::<F>(values) {
        return Err(TextFault::Code { line: 7 });
    }
    if !are_codes::<Doubled<F>>(tags) {
        return Err(TextFault::Code { line: 8 });
    }
    Ok(())
}

// Asks the same over the field of this name. (`ask_codes` takes the field as a type, so a match names each.)
fn ask_named(field: FieldName, values: &[u64], tags: &[u64]) -> Result<(), TextFault>
    ensures { refusal_told result ≡ first_no ((all_codes (codes_of field).size values.now, (59, 7)) ∷ (all_codes ((codes_of field).size * (codes_of field).size) tags.now, (59, 8)) ∷ []) }
{
    match field {
        FieldName::Byte => ask_codes::<Byte>(values, tags),
        FieldName::P251 => ask_codes::<P251>(values, tags),
    }
}

// Values and tags, pair by pair, at the front of 64 pairs. (It writes by index: of what is written through `iter_mut().zip(..)`
// a proof knows only how many items there are.)
fn pair_up(values: &[u64], tags: &[u64]) -> [Pair; 64]
    requires { (length values.now ≡ length tags.now) × (length values.now ≤ 64) }
    ensures { take (length values.now) result ≡ paired values.now tags.now }
{
    let mut pairs = [Pair::default(); 64];
    for (j, (value, tag)) in values.iter().zip(tags).enumerate() {
        pairs[j] = Pair {
            value: *value,
            tag: *tag,
        };
    }
    pairs
}

// Puts the questions that follow the eight lines.
fn settle(lines: &CardLines) -> Result<CardRead, TextFault>
    ensures { read_told result ≡ answer lines.now.field lines.now.n lines.now.k lines.now.t lines.now.d lines.now.sixth (numbers_in lines.now.seventh.text.now) (numbers_in lines.now.eighth.text.now) lines.now.rest.now }
{
    if !lines.rest.is_empty() {
        return Err(TextFault::Follows);
    }
    let figures = figures(lines.n, lines.k, lines.t, lines.d).map_err(|_| TextFault::Figures)?;
    if !figures.has_participant(lines.sixth) {
        return Err(TextFault::Number);
    }
    let d = figures.d();
    if lines.seventh.count() != d {
        return Err(TextFault::Count { line: 7 });
    }
    if lines.eighth.count() != d {
        return Err(TextFault::Count { line: 8 });
    }
    let mut values = [0; 64];
    lines.seventh.copy_into(&mut values);
    let mut tags = [0; 64];
    lines.eighth.copy_into(&mut tags);
    ask_named(lines.field, &values[..d], &tags[..d])?;
    Ok(CardRead {
        field: lines.field,
        figures,
        number: lines.sixth,
        pairs: pair_up(&values[..d], &tags[..d]),
    })
}

impl<'a> CardReader<'a> {
    pub fn new(text: &'a [u8]) -> CardReader<'a>
        ensures { result.text.now ≡ text.now }
    {
        CardReader { text }
    }

    // the eight lines of a card
    fn lines(&self) -> Result<CardLines<'a>, TextFault>
        ensures { lines_told decimal list_text result ≡ lines_of 1 card_keys self.now.text.now }
    {
        take_lines(Key::Card, Key::Values, Key::Tags, self.text)
    }

    // Reads the text, or refuses it by the first question that is answered with no.
    pub fn read(&self) -> Result<CardRead, TextFault>
        ensures { read_told result ≡ read_card self.now.text.now }
    {
        if self.text.len() > 1024 {
            return Err(TextFault::TooLong);
        }
        settle(&self.lines()?)
    }

    // The list of values, as it stands in the text, where all lines pass. (It and the next are two promised parts, each one
    // expression.)
    pub fn values(&self) -> Option<&'a [u8]>
        ensures { option_map (λ x. x.now) result ≡ part_of 6 (lines_of 1 card_keys self.now.text.now) }
    {
        Some(self.lines().ok()?.seventh.text)
    }

    // The list of tags, as it stands in the text, where all lines pass.
    pub fn tags(&self) -> Option<&'a [u8]>
        ensures { option_map (λ x. x.now) result ≡ part_of 7 (lines_of 1 card_keys self.now.text.now) }
    {
        Some(self.lines().ok()?.eighth.text)
    }
}

impl CardRead {
    // the field that the text names
    pub fn field(&self) -> FieldName
        ensures { result ≡ self.now.field }
    {
        self.field
    }

    // the figures that the text tells
    pub fn figures(&self) -> Figures
        ensures { result ≡ self.now.figures }
    {
        self.figures
    }

    // whose card it is
    pub fn number(&self) -> u64
        ensures { result ≡ self.now.number }
    {
        self.number
    }

    // the card
    pub fn card(&self) -> &[Pair]
        ensures { result.now ≡ (shown self.now).card }
    {
        &self.pairs[..self.figures.d()]
    }
}

impl TextFault {
    // the number of the refusal
    pub fn number(&self) -> u32
        ensures { result ≡ (fault_told self.now).0 }
    {
        match self {
            TextFault::TooLong => 51,
            TextFault::Key { line: _ } => 52,
            TextFault::Content { line: _ } => 53,
            TextFault::LineEnd { line: _ } => 54,
            TextFault::Follows => 55,
            TextFault::Figures => 56,
            TextFault::Number => 57,
            TextFault::Count { line: _ } => 58,
            TextFault::Code { line: _ } => 59,
        }
    }

    // the line of the refusal, counted from 1; 0 is the whole text
    pub fn line(&self) -> u32
        ensures { result ≡ (fault_told self.now).1 }
    {
        match self {
            TextFault::TooLong => 0,
            TextFault::Follows => 9,
            TextFault::Figures => 5,
            TextFault::Number => 6,
            TextFault::Key { line }
            | TextFault::Content { line }
            | TextFault::LineEnd { line }
            | TextFault::Count { line }
            | TextFault::Code { line } => *line,
        }
    }
}
