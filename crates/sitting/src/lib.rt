// The table at which cards are laid.
#![tactic(auto)]

mod calls;
mod card;
mod holder;
mod table;
mod types;

pub use card::ask_card;
pub use holder::{KeyHolder, confirm_key};
pub use types::{CardFault, Gathering, PresentFault, Sealed, WithdrawFault};
