// What the reader and the writer of texts take and answer.
ghost use Rattle.std.specs.Prelude.{◌≤◌};

use crate::numbers::NumberList;
use scheme::{DealFault, Figures, FiguresFault, Pair};
use sitting::CardFault;
use thiserror::Error;

// The name of a field, as it stands in a text.
#[derive(Clone, Copy, PartialEq, Eq, Debug)]
pub enum FieldName {
    Byte,
    P251,
}

// A reader holds a text, and shows its two lists as parts of it.
#[derive(Clone, Copy)]
pub struct CardReader<'a> {
    pub(crate) text: &'a [u8],
}

// What a text that passed the reader tells: the field, the figures, whose card it is, and the card.
// The pairs are an array, whose length d stands in the figures: a list of fixed capacity is not `Copy`, as this type is.
#[derive(Clone, Copy)]
pub struct CardRead {
    pub(crate) field: FieldName,
    pub(crate) figures: Figures,
    pub(crate) number: u64,
    // the first d are the card
    pub(crate) pairs: [Pair; 64],
}

// What a line is about, by its key.
#[derive(Clone, Copy)]
pub(crate) enum Key {
    // the field's name
    Field,
    // n
    Participants,
    // k
    Threshold,
    // t
    Altered,
    // d
    Symbols,
    // whose card it is
    Card,
    // the card's values
    Values,
    // the card's tags
    Tags,
    // the key's symbols
    Secret,
    // the value coefficients
    ValueCoefficients,
    // the tag coefficients
    TagCoefficients,
}

// Why a text is refused, with the line where that is not always the same.
#[derive(Clone, Copy, PartialEq, Eq, Debug, Error)]
pub enum TextFault {
    #[error("the text has more than 1,024 bytes")]
    TooLong,
    #[error("line {line} does not begin with its key and an equals sign")]
    Key { line: u32 },
    #[error("what stands behind the key of line {line} is no such number, list of numbers or field's name")]
    Content { line: u32 },
    #[error("line {line} does not end behind its content")]
    LineEnd { line: u32 },
    #[error("something follows the last line")]
    Follows,
    #[error("the figures do not pass")]
    Figures,
    #[error("the number of the card is not from 1 to n")]
    Number,
    #[error("the list in line {line} has not d numbers")]
    Count { line: u32 },
    #[error("a number in line {line} is not a code of its field")]
    Code { line: u32 },
}

// A line of a text, taken apart.
#[derive(Clone, Copy)]
pub(crate) struct Line<'a, C> {
    // what stands behind the key
    pub(crate) content: C,
    // what follows the line
    pub(crate) rest: &'a [u8],
}

// What the lines of a text tell: the five that tell of a scheme, and three more.
#[derive(Clone, Copy)]
pub(crate) struct Lines<'a, S, V> {
    pub(crate) field: FieldName,
    pub(crate) n: u64,
    pub(crate) k: u64,
    pub(crate) t: u64,
    pub(crate) d: u64,
    pub(crate) sixth: S,
    pub(crate) seventh: V,
    pub(crate) eighth: NumberList<'a>,
    // what follows the last line
    pub(crate) rest: &'a [u8],
}

// The lines of a card: whose it is, its values and its tags.
pub(crate) type CardLines<'a> = Lines<'a, u64, NumberList<'a>>;

// The lines of a dealing sheet: the key's symbols, the value coefficients if there are any, and the tag coefficients.
pub(crate) type SheetLines<'a> = Lines<'a, NumberList<'a>, Option<NumberList<'a>>>;

// Which number of a pair.
#[derive(Clone, Copy)]
pub(crate) enum Half {
    Value,
    Tag,
}

// Why a card is not written.
#[derive(Clone, Copy, Debug, PartialEq, Eq, Error)]
pub enum WriteFault {
    #[error(transparent)]
    Card(CardFault),
    #[error("the buffer has fewer than 1,024 bytes")]
    Buffer,
}

// What a dealing sheet tells: the field, the figures, and the lists that `deal` takes.
// The lists are arrays, whose lengths follow from the figures: a list of fixed capacity is not `Copy`, as this type is.
#[derive(Clone, Copy)]
pub struct Sheet {
    pub(crate) field: FieldName,
    pub(crate) figures: Figures,
    // the first d are the key's symbols
    pub(crate) key: [u64; 64],
    // the first d·(k − 1) are the value coefficients
    pub(crate) values: [u64; 2048],
    // the first d·(t + 1) are the tag coefficients
    pub(crate) tags: [u64; 1024],
}

// Why a dealing sheet is refused.
#[derive(Clone, Copy, PartialEq, Eq, Debug, Error)]
pub enum SheetFault {
    #[error("the text has more than 16,384 bytes")]
    TooLong,
    #[error(transparent)]
    Line(TextFault),
    #[error(transparent)]
    Figures(FiguresFault),
    #[error(transparent)]
    Deal(DealFault),
}
