// Finite fields whose elements are numbered by codes, and the doubling of any field that can be doubled.
#![tactic(auto)]

mod byte;
mod doubled;
mod field;
mod inverses;
mod p251;
mod symbol;

pub use byte::Byte;
pub use doubled::{Doubled, Twice};
pub use field::{Doublable, Field};
pub use inverses::tables_hold_inverses;
pub use p251::P251;
pub use symbol::Symbol;
