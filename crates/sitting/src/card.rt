// The questions about a card that is said to be a participant's. Presenting a card puts them, and writing its text does.
ghost use Rattle.runs.specs.Cards.{card_refusal, is_coded_pair};
ghost use Rattle.sitting.specs.Faults.{card_number, card_told};
ghost use Rattle.std.specs.List.{list_all};
ghost use Rattle.std.specs.Prelude.{◌≡◌};

use crate::types::CardFault;
use fields::{Doublable, Doubled};
use scheme::{Figures, Pair, is_code};

impl CardFault {
    // the number of the refusal
    pub fn number(&self) -> u32
        ensures { result ≡ card_number self.now }
    {
        match self {
            CardFault::Number => 41,
            CardFault::Pairs => 42,
            CardFault::Code => 43,
        }
    }
}

// Whether the value is a code of the field and the tag one of the doubled field.
fn is_coded<F: Doublable>(pair: Pair) -> bool
    ensures { result ≡ is_coded_pair F.Field.codes pair }
{
    is_code::<F>(pair.value) && is_code::<Doubled<F>>(pair.tag)
}

// Whether all values and tags are codes.
fn are_coded<F: Doublable>(card: &[Pair]) -> bool
    ensures { result ≡ list_all (is_coded_pair F.Field.codes) card.now }
{
    card.iter().all(|pair| is_coded::<F>(*pair))
}

// Puts the questions about a card that is said to be participant i's.
pub fn ask_card<F: Doublable>(figures: &Figures, i: u64, card: &[Pair]) -> Result<(), CardFault>
    ensures { card_told result ≡ card_refusal F.Field.codes figures.now i card.now }
{
    if !figures.has_participant(i) {
        return Err(CardFault::Number);
    }
    if card.len() != figures.d() {
        return Err(CardFault::Pairs);
    }
    if !are_coded::<F>(card) {
        return Err(CardFault::Code);
    }
    Ok(())
}
