// Cards as text.
#![tactic(auto)]

mod content;
mod lines;
mod numbers;
mod putting;
mod reader;
mod round_trips;
mod sheet;
mod types;
mod writer;

pub use round_trips::texts_round_trip;
pub use sheet::read_sheet;
pub use types::{CardRead, CardReader, FieldName, Sheet, SheetFault, TextFault, WriteFault};
pub use writer::write_card;
