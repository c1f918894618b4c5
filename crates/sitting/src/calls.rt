// The calls on a sitting.
ghost use Rattle.runs.specs.Cards.{no_cards, presented, withdrawn};
ghost use Rattle.sitting.specs.Faults.{present_number, present_told, withdraw_number, withdraw_told};
ghost use Rattle.sitting.specs.Sitting.{cards_on_table};
ghost use Rattle.sitting.specs.Table.{blank_table, cleared, laid};
ghost use Rattle.sitting.specs.declared.types.PresentFault.TheVariants.{Card};
ghost use Rattle.std.specs.Prelude.{◌≡◌, is_ok, if◌then◌else◌};

use crate::card::ask_card;
use crate::types::{CardFault, Gathering, PresentFault, Sealed, Sitting, Table, WithdrawFault};
use fields::Doublable;
use scheme::{Figures, Pair};
use std::marker::PhantomData;

impl From<CardFault> for PresentFault {
    ghost from_gives = { λ x y. y ≡ Card x };

    fn from(fault: CardFault) -> PresentFault {
        PresentFault::Card(fault)
    }
}

impl PresentFault {
    // the number of the refusal
    pub fn number(&self) -> u32
        ensures { result ≡ present_number self.now }
    {
        match self {
            PresentFault::Card(fault) => fault.number(),
            PresentFault::AlreadyLies => 44,
        }
    }
}

impl WithdrawFault {
    // the number of the refusal
    pub fn number(&self) -> u32
        ensures { result ≡ withdraw_number self.now }
    {
        match self {
            WithdrawFault::Number => 41,
            WithdrawFault::NotLying => 45,
        }
    }
}

impl<F: Doublable> Gathering<F> {
    // A sitting with no card lying.
    #[tactic(auto, using(crate::proofs::Lying::none_on_blank))]
    pub fn new(figures: Figures) -> Self
        ensures cards { cards_on_table result.sitting ≡ no_cards F.Field.codes figures }
        ensures figures { result.sitting.figures ≡ figures }
        ensures table { result.sitting.table ≡ blank_table }
    {
        Self {
            sitting: Sitting {
                figures,
                table: Table::new(),
                field: PhantomData,
            },
        }
    }

    // Lays participant i's card, and answers how many cards then lie.
    pub fn present(&mut self, i: u64, card: &[Pair]) -> Result<usize, PresentFault>
        ensures answer { let before = self.old.sitting in (present_told result, cards_on_table self.new.sitting) ≡ presented F.Field.codes before.figures (cards_on_table before) i card.now }
        ensures after { let before = self.old.sitting in self.new.sitting ≡ (if is_ok result then record before { table = laid before.table i card.now } else before) }
    {
        let sitting = &mut self.sitting;
        ask_card::<F>(&sitting.figures, i, card)?;
        let number = i as usize;
        if sitting.table.lies(number) {
            return Err(PresentFault::AlreadyLies);
        }
        sitting.table.lay(number, card);
        Ok(sitting.table.lying_among(&sitting.figures))
    }

    // Takes up participant i's card, and answers how many cards then lie.
    pub fn withdraw(&mut self, i: u64) -> Result<usize, WithdrawFault>
        ensures answer { let before = self.old.sitting in (withdraw_told result, cards_on_table self.new.sitting) ≡ withdrawn F.Field.codes before.figures (cards_on_table before) i }
        ensures after { let before = self.old.sitting in self.new.sitting ≡ (if is_ok result then record before { table = cleared before.table i } else before) }
    {
        let sitting = &mut self.sitting;
        if !sitting.figures.has_participant(i) {
            return Err(WithdrawFault::Number);
        }
        let number = i as usize;
        if !sitting.table.lies(number) {
            return Err(WithdrawFault::NotLying);
        }
        sitting.table.clear(number);
        Ok(sitting.table.lying_among(&sitting.figures))
    }

    // From now on no card is taken.
    pub fn seal(self) -> Sealed<F>
        ensures { result.sitting ≡ self.sitting }
    {
        Sealed {
            sitting: self.sitting,
        }
    }
}

impl<F: Doublable> Sealed<F> {
    // From now on cards are taken again.
    pub fn reopen(self) -> Gathering<F>
        ensures { result.sitting ≡ self.sitting }
    {
        Gathering {
            sitting: self.sitting,
        }
    }
}
