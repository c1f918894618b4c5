// The scheme: its figures, the dealing of a key into shares, and the polynomials that opening rests on.
#![tactic(auto)]

mod arithmetic;
mod dealing;
mod decoding;
mod figures_call;
mod fitting;
mod held;
mod polynomial;
mod types;

pub use arithmetic::value_at;
pub use dealing::{are_codes, deal, is_code};
pub use figures_call::figures;
pub use fitting::{decode, interpolate, interpolate_at};
pub use held::Polynomial;
pub use types::{DealFault, Figures, FiguresFault, Pair, Point, PointsFault};
