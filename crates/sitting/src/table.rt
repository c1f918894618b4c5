// Laying a card on the table and taking one up.
ghost use Rattle.std.specs.Prelude.{◌≡◌, ◌≤◌, ◌-◌, false, length, take, count_by, slice_index_or};
ghost use Rattle.sitting.specs.Table.{blank_table, cleared, laid};

use crate::types::Table;
use scheme::{Figures, Pair};

const BLANK: Pair = Pair { value: 0, tag: 0 };

// How many flags are set. (A `for`: through `filter` and `count` it takes more than twice as long.)
fn count(flags: &[bool]) -> usize
    ensures { result ≡ count_by (λ b. b) flags.now }
{
    let mut set = 0;
    for flag in flags {
        if *flag {
            set += 1;
        }
    }
    set
}

impl Table {
    // All places blank and no card lying.
    pub(crate) fn new() -> Table
        ensures { result ≡ blank_table }
    {
        Table {
            places: [BLANK; 2048],
            lying: [false; 32],
        }
    }

    // Whether a card of participant i lies.
    pub(crate) fn lies(&self, i: usize) -> bool
        requires { (1 ≤ i) × (i ≤ 32) }
        ensures { result ≡ slice_index_or self.now.lying (i - 1) false }
    {
        self.lying[i - 1]
    }

    // Lays a card of participant i.
    pub(crate) fn lay(&mut self, i: usize, card: &[Pair])
        requires { (1 ≤ i) × ((i ≤ 32) × (length card.now ≤ 64)) }
        ensures { self.new ≡ laid self.old i card.now }
    {
        let start = (i - 1) * 64;
        self.places[start..start + card.len()].copy_from_slice(card);
        self.lying[i - 1] = true;
    }

    // Takes up the card of participant i: its places are blank again.
    pub(crate) fn clear(&mut self, i: usize)
        requires { (1 ≤ i) × (i ≤ 32) }
        ensures { self.new ≡ cleared self.old i }
    {
        let start = (i - 1) * 64;
        self.places[start..start + 64].fill(BLANK);
        self.lying[i - 1] = false;
    }

    // How many cards of the n participants lie.
    pub(crate) fn lying_among(&self, figures: &Figures) -> usize
        ensures { result ≡ count_by (λ b. b) (take figures.now.n self.now.lying) }
    {
        count(&self.lying[..figures.n()])
    }
}
