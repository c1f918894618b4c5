// The reader of dealing sheets.
ghost use Rattle.std.specs.Prelude.{◌≡◌, ◌*◌, ◌≤◌, length, take};
ghost use Rattle.scheme.specs.Dealing.{deal_told, dealing};
ghost use Rattle.text.specs.Card.{codes_of, u_of, v_of};
ghost use Rattle.text.specs.Numbers.{numbers_in};
ghost use Rattle.text.specs.Parts.{optional_numbers};
ghost use Rattle.text.specs.Sheet.{read_sheet_answer, sheet_answer, sheet_fault_told, sheet_shown, sheet_told};
ghost use Rattle.text.specs.declared.types.SheetFault.TheVariants.{Deal, Figures as Passing, Line};

use crate::lines::take_lines;
use crate::numbers::NumberList;
use crate::types::{FieldName, Key, Sheet, SheetFault, SheetLines, TextFault};
use fields::{Byte, P251};
use scheme::{DealFault, Figures, FiguresFault, Pair, deal, figures};

impl From<TextFault> for SheetFault {
    ghost from_gives = { λ e r. r ≡ Line e };

    fn from(e: TextFault) -> SheetFault {
        SheetFault::Line(e)
    }
}

impl From<FiguresFault> for SheetFault {
    ghost from_gives = { λ e r. r ≡ Passing e };

    fn from(e: FiguresFault) -> SheetFault {
        SheetFault::Figures(e)
    }
}

impl From<DealFault> for SheetFault {
    ghost from_gives = { λ e r. r ≡ Deal e };

    fn from(e: DealFault) -> SheetFault {
        SheetFault::Deal(e)
    }
}

// How many numbers the list has, which may be missing.
fn count_optional(list: Option<NumberList>) -> usize
    ensures { result ≡ length (optional_numbers list.entry) }
{
    list.map_or(0, |list| list.count())
}

// Copies its numbers to the front of a buffer with a place for each.
fn copy_optional(list: Option<NumberList>, numbers: &mut [u64])
    requires { length (optional_numbers list) ≤ length numbers.old }
    ensures { take (length (optional_numbers list.entry)) numbers.new ≡ optional_numbers list.entry }
{
    if let Some(list) = list {
        list.copy_into(numbers);
    }
}

// Puts the questions that follow the eight lines.
fn settle_sheet(lines: &SheetLines) -> Result<Sheet, SheetFault>
    ensures { sheet_told result ≡ sheet_answer lines.now.field lines.now.n lines.now.k lines.now.t lines.now.d (numbers_in lines.now.sixth.text.now) (optional_numbers lines.now.seventh) (numbers_in lines.now.eighth.text.now) lines.now.rest.now }
{
    if !lines.rest.is_empty() {
        return Err(SheetFault::Line(TextFault::Follows));
    }
    let figures = figures(lines.n, lines.k, lines.t, lines.d)?;
    if lines.sixth.count() != figures.d() {
        return Err(SheetFault::Deal(DealFault::KeySymbols));
    }
    if count_optional(lines.seventh) != figures.value_coefficients()
        || lines.eighth.count() != figures.tag_coefficients()
    {
        return Err(SheetFault::Deal(DealFault::Coefficients));
    }
    // the lists are copied to their places in the sheet: each array of its own would take as much of the stack again
    let mut sheet = Sheet {
        field: lines.field,
        figures,
        key: [0; 64],
        values: [0; 2048],
        tags: [0; 1024],
    };
    lines.sixth.copy_into(&mut sheet.key);
    copy_optional(lines.seventh, &mut sheet.values);
    lines.eighth.copy_into(&mut sheet.tags);
    Ok(sheet)
}

// Reads a dealing sheet, or refuses it by the first question that is answered with no.
pub fn read_sheet(text: &[u8]) -> Result<Sheet, SheetFault>
    ensures { sheet_told result ≡ read_sheet_answer text.now }
{
    if text.len() > 16384 {
        return Err(SheetFault::TooLong);
    }
    settle_sheet(&take_lines(
        Key::Secret,
        Key::ValueCoefficients,
        Key::TagCoefficients,
        text,
    )?)
}

impl Sheet {
    // the field that the sheet names
    pub fn field(&self) -> FieldName
        ensures { result ≡ self.now.field }
    {
        self.field
    }

    // the figures that the sheet tells
    pub fn figures(&self) -> Figures
        ensures { result ≡ self.now.figures }
    {
        self.figures
    }

    // the key's symbols
    pub fn key(&self) -> &[u64]
        ensures { result.now ≡ (sheet_shown self.now).key }
    {
        &self.key[..self.figures.d()]
    }

    // the value coefficients
    pub fn values(&self) -> &[u64]
        ensures { result.now ≡ (sheet_shown self.now).values }
    {
        &self.values[..self.figures.value_coefficients()]
    }

    // the tag coefficients
    pub fn tags(&self) -> &[u64]
        ensures { result.now ≡ (sheet_shown self.now).tags }
    {
        &self.tags[..self.figures.tag_coefficients()]
    }

    // how many pairs its cards have
    pub fn pairs(&self) -> usize
        ensures value { result ≡ self.now.figures.n * self.now.figures.d }
        ensures bound { result ≤ 2048 }
    {
        self.figures.pairs()
    }

    // Deals what the sheet tells into a buffer of pairs, as the call `deal` does over the field that is named.
    // (`deal` takes the field as a type, so a match names each.)
    pub fn deal(&self, cards: &mut [Pair]) -> Result<usize, DealFault>
        ensures { (deal_told result, cards.new) ≡ dealing (codes_of self.now.field) (u_of self.now.field) (v_of self.now.field) self.now.figures (sheet_shown self.now).key (sheet_shown self.now).values (sheet_shown self.now).tags cards.old }
    {
        match self.field {
            FieldName::Byte => deal::<Byte>(
                &self.figures,
                self.key(),
                self.values(),
                self.tags(),
                cards,
            ),
            FieldName::P251 => deal::<P251>(
                &self.figures,
                self.key(),
                self.values(),
                self.tags(),
                cards,
            ),
        }
    }
}

impl SheetFault {
    // the number of the refusal
    pub fn number(&self) -> u32
        ensures { result ≡ (sheet_fault_told self.now).0 }
    {
        match self {
            SheetFault::TooLong => 51,
            SheetFault::Line(e) => e.number(),
            SheetFault::Figures(e) => e.number(),
            SheetFault::Deal(e) => e.number(),
        }
    }

    // the line of the refusal; 0 is the whole sheet
    pub fn line(&self) -> u32
        ensures { result ≡ (sheet_fault_told self.now).1 }
    {
        match self {
            SheetFault::Line(e) => e.line(),
            _ => 0,
        }
    }
}
