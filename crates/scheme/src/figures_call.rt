// The call `figures`, and what figures and their faults show.
ghost use Rattle.scheme.specs.Figures.{figures_answer, figures_number, figures_told};
ghost use Rattle.std.specs.Prelude.{◌≡◌, ◌&&◌, nat_le};

use crate::types::{Figures, FiguresFault};

// Puts the questions about n participants, threshold k, t altered shares and d symbols, in that order.
pub fn figures(n: u64, k: u64, t: u64, d: u64) -> Result<Figures, FiguresFault>
    ensures { figures_told result ≡ figures_answer n k t d }
{
    if !(1..=32).contains(&n) {
        return Err(FiguresFault::Participants);
    }
    if !(1..=n).contains(&k) {
        return Err(FiguresFault::Threshold);
    }
    if t > (k - 1) / 3 {
        return Err(FiguresFault::Altered);
    }
    if !(1..=64).contains(&d) {
        return Err(FiguresFault::KeyLength);
    }
    Ok(Figures {
        n: n as usize,
        k: k as usize,
        t: t as usize,
        d: d as usize,
    })
}

impl Figures {
    // how many participants hold a share
    pub fn n(&self) -> usize
        ensures { result ≡ self.now.n }
    {
        self.n
    }

    // how many shares open
    pub fn k(&self) -> usize
        ensures { result ≡ self.now.k }
    {
        self.k
    }

    // how many altered shares are borne
    pub fn t(&self) -> usize
        ensures { result ≡ self.now.t }
    {
        self.t
    }

    // how many symbols the key has
    pub fn d(&self) -> usize
        ensures { result ≡ self.now.d }
    {
        self.d
    }

    // whether i counts one of the participants, who are counted from 1
    pub fn has_participant(&self, i: u64) -> bool
        ensures { result ≡ (nat_le 1 i && nat_le i self.now.n) }
    {
        (1..=self.n as u64).contains(&i)
    }
}

impl FiguresFault {
    // the number of the refusal
    pub fn number(&self) -> u32
        ensures { result ≡ figures_number self.now }
    {
        match self {
            FiguresFault::Participants => 11,
            FiguresFault::Threshold => 12,
            FiguresFault::Altered => 13,
            FiguresFault::KeyLength => 14,
        }
    }
}
