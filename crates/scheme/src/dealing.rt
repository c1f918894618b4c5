// The call `deal`.
ghost use Rattle.std.specs.Prelude.{◌≡◌, ◌+◌, ◌-◌, ◌*◌, ◌<◌, ◌≤◌, ◌&&◌, ◌∷◌, length, nat_lt, IfOk, IsTrue};
ghost use Rattle.scheme.specs.Dealing.{at_place, deal_number, deal_refusal, deal_told, dealing, dealt_pair, dealt_share, dealt_shares, has_top, places, refusal_told, tag_polynomial, value_polynomial};
ghost use Rattle.scheme.specs.Questions.{all_codes};
ghost use Rattle.std.specs.List.{list_all};

use crate::polynomial::{element, evaluate};
use crate::types::{DealFault, Figures, Pair};
use fields::{Doublable, Doubled, Field, Twice};
use std::marker::PhantomData;

// What a dealing takes and makes.
impl Figures {
    // how many value coefficients a dealing takes: k - 1 for each symbol
    pub fn value_coefficients(&self) -> usize
        ensures value { result ≡ self.now.d * (self.now.k - 1) }
        ensures bound { result ≤ 2048 }
    {
        self.d * (self.k - 1)
    }

    // how many tag coefficients a dealing takes: t + 1 for each symbol
    pub fn tag_coefficients(&self) -> usize
        ensures value { result ≡ self.now.d * (self.now.t + 1) }
        ensures bound { result ≤ 1024 }
    {
        self.d * (self.t + 1)
    }

    // how many pairs a dealing makes: one for each participant and symbol
    pub fn pairs(&self) -> usize
        ensures value { result ≡ self.now.n * self.now.d }
        ensures bound { result ≤ 2048 }
    {
        self.n * self.d
    }
}

impl DealFault {
    // the number of the refusal
    pub fn number(&self) -> u32
        ensures { result ≡ deal_number self.now }
    {
        match self {
            DealFault::KeySymbols => 15,
            DealFault::Coefficients => 16,
            DealFault::Buffer => 17,
            DealFault::Code => 18,
            DealFault::TopCoefficient => 19,
        }
    }
}

// Whether n is the code of an element.
pub fn is_code<F: Field>(n: u64) -> bool
    ensures { result ≡ nat_lt n F.codes.size }
{
    F::from_code(n).is_some()
}

// Whether every number is the code of an element.
pub fn are_codes<F: Field>(numbers: &[u64]) -> bool
    ensures { result ≡ all_codes F.codes.size numbers.now }
{
    numbers.iter().all(|n| is_code::<F>(*n))
}

// A key with the coefficients of its polynomials, whose lists have the lengths and the codes that `deal` asks for over the field F.
// These facts stand in the type, so that only `Secret::new` asks them.
#[derive(Drop)]
struct Secret<'a, F: Doublable> {
    figures: Figures,
    key: &'a [u64],
    values: &'a [u64],
    tags: &'a [u64],
    field: PhantomData<F>,
    ghost key_length: { length key.now ≡ figures.d },
    ghost values_length: { length values.now ≡ figures.d * (figures.k - 1) },
    ghost tags_length: { length tags.now ≡ figures.d * (figures.t + 1) },
    ghost key_codes: { IsTrue (all_codes F.Field.codes.size key.now) },
    ghost values_codes: { IsTrue (all_codes F.Field.codes.size values.now) },
    ghost tags_codes: { IsTrue (all_codes (F.Field.codes.size * F.Field.codes.size) tags.now) },
}

// The coefficients of place j, of which each place has `width`.
fn coefficients_at(coefficients: &[u64], width: usize, j: usize) -> &[u64]
    requires { j * width + width ≤ length coefficients.now }
    ensures { result.now ≡ at_place width coefficients.now j }
{
    let start = j * width;
    &coefficients[start..start + width]
}

impl<'a, F: Doublable> Secret<'a, F> {
    // Puts the questions of `deal`, for a buffer of `room` pairs.
    fn new(
        figures: &Figures,
        key: &'a [u64],
        values: &'a [u64],
        tags: &'a [u64],
        room: usize,
    ) -> Result<Self, DealFault>
        ensures told { refusal_told result ≡ deal_refusal F.Field.codes F.Doublable.u F.Doublable.v figures.now key.now values.now tags.now room }
        ensures same { IfOk result (λ s. (s.figures ≡ figures.now) × (s.key.now ≡ key.now) × (s.values.now ≡ values.now) × (s.tags.now ≡ tags.now)) }
    {
        if key.len() != figures.d {
            return Err(DealFault::KeySymbols);
        }
        if values.len() != figures.value_coefficients()
            || tags.len() != figures.tag_coefficients()
        {
            return Err(DealFault::Coefficients);
        }
        if room != figures.pairs() {
            return Err(DealFault::Buffer);
        }
        if !(are_codes::<F>(key) && are_codes::<F>(values) && are_codes::<Doubled<F>>(tags)) {
            return Err(DealFault::Code);
        }
        let secret = Secret {
            figures: *figures,
            key,
            values,
            tags,
            field: PhantomData,
        };
        if figures.k >= 2 && !secret.have_tops() {
            return Err(DealFault::TopCoefficient);
        }
        Ok(secret)
    }

    // Whether the highest value coefficient of place j is other than zero.
    fn has_top(&self, j: usize) -> bool
        requires j_in { j < self.now.figures.d }
        requires k_in { 2 ≤ self.now.figures.k }
        ensures { result ≡ has_top self.now.figures self.now.key.now self.now.values.now j }
    {
        let of_place = coefficients_at(self.values, self.figures.k - 1, j);
        of_place[self.figures.k - 2] != 0
    }

    // Whether it is so at every place.
    fn have_tops(&self) -> bool
        requires { 2 ≤ self.now.figures.k }
        ensures { result ≡ list_all (has_top self.now.figures self.now.key.now self.now.values.now) (places self.now.figures) }
    {
        (0..self.figures.d).all(|j| self.has_top(j))
    }

    // What participant i holds for place j.
    #[tactic(auto, using(crate::proofs::Asking::all_part))]
    fn pair(&self, i: u64, j: usize) -> Pair
        requires i_in { i < F.Field.codes.size }
        requires j_in { j < self.now.figures.d }
        ensures { result ≡ dealt_pair F.Field.codes F.Doublable.u F.Doublable.v (value_polynomial self.now.figures self.now.key.now self.now.values.now j) (tag_polynomial self.now.figures self.now.tags.now j) i }
    {
        let x = element::<F>(i);
        let symbol = element::<F>(self.key[j]);
        let values = coefficients_at(self.values, self.figures.k - 1, j);
        let tags = coefficients_at(self.tags, self.figures.t + 1, j);
        let value = F::add(symbol, F::mul(x, evaluate::<F>(values, x)));
        let point = Twice {
            low: value,
            high: x,
        };
        let tag = evaluate::<Doubled<F>>(tags, point);
        Pair {
            value: F::to_code(value),
            tag: Doubled::<F>::to_code(tag),
        }
    }

    // Fills the buffer with participant i's share, place after place.
    fn write_share(&self, i: u64, share: &mut [Pair])
        requires i_in { i < F.Field.codes.size }
        requires share_len { length share.old ≡ self.now.figures.d }
        ensures { share.new ≡ dealt_share F.Field.codes F.Doublable.u F.Doublable.v self.now.figures (value_polynomial self.now.figures self.now.key.now self.now.values.now) (tag_polynomial self.now.figures self.now.tags.now) i }
    {
        for (j, pair) in share.iter_mut().enumerate() {
            *pair = self.pair(i, j);
        }
    }

    // Fills the buffer with the shares, participant after participant. By number: of what is written through `chunks_mut` a proof
    // knows only how many there are. (One loop over all pairs would divide by d to find a pair's participant and place.)
    fn write_shares(&self, shares: &mut [Pair])
        requires shares_len { length shares.old ≡ self.now.figures.n * self.now.figures.d }
        ensures { shares.new ≡ dealt_shares F.Field.codes F.Doublable.u F.Doublable.v self.now.figures self.now.key.now self.now.values.now self.now.tags.now }
    {
        let d = self.figures.d;
        for i in 0..self.figures.n {
            let start = i * d;
            self.write_share(i as u64 + 1, &mut shares[start..start + d]);
        }
    }
}

// Deals a key of d symbols into n shares of d pairs, written participant after participant and place after place. Answers the
// number of pairs; refused, it leaves the buffer as it was.
pub fn deal<F: Doublable>(
    figures: &Figures,
    key: &[u64],
    values: &[u64],
    tags: &[u64],
    shares: &mut [Pair],
) -> Result<usize, DealFault>
    ensures { (deal_told result, shares.new) ≡ dealing F.Field.codes F.Doublable.u F.Doublable.v figures.now key.now values.now tags.now shares.old }
{
    let secret = Secret::<F>::new(figures, key, values, tags, shares.len())?;
    secret.write_shares(shares);
    Ok(figures.pairs())
}
