// Polynomials and pairs of them, held in place: no call allocates. Twice the 32 points of the largest call leave room for every
// product.
ghost use Rattle.std.specs.Prelude.{◌≡◌, ◌<◌, ◌≤◌, [], ◌∷◌, ◌++◌, length};

use std::marker::Model;

// A polynomial by its coefficients, lowest power first. A contract sees the list of them; what fills the other places means nothing.
// It is no `arrayvec::ArrayVec`, which asks a default value of every element; a field does not promise one.
#[derive(Drop)]
pub struct Polynomial<E> {
    pub(crate) coefficients: [E; 64],
    pub(crate) len: usize,
}

impl<E> Model for Polynomial<E> {
    ghost use Rattle.std.specs.Prelude.{◌≡◌, ◌≤◌, List, length, take};

    ghost Value = { List E };

    ghost view = { λ p. take p.len p.coefficients };

    ghost invariant = { λ p. (p.len ≤ 64) × (length p.coefficients ≡ 64) };
}

impl<E: Copy> Polynomial<E> {
    // No coefficients: the polynomial 0. The filler stands in the places that are not used.
    pub(crate) fn empty(filler: E) -> Self
        ensures { result ≡ [] }
    {
        Polynomial {
            coefficients: [filler; 64],
            len: 0,
        }
    }

    // How many coefficients there are, at most 64.
    pub fn len(&self) -> usize
        ensures value { result ≡ length self.now }
        ensures fits { result ≤ 64 }
    {
        self.len
    }

    // The coefficients.
    pub(crate) fn as_slice(&self) -> &[E]
        ensures value { result.now ≡ self.now }
        ensures fits { length result.now ≤ 64 }
    {
        &self.coefficients[..self.len]
    }

    // One coefficient more, at the highest power.
    pub(crate) fn push(&mut self, c: E)
        requires { length self.old < 64 }
        ensures { self.new ≡ self.old ++ c ∷ [] }
    {
        self.coefficients[self.len] = c;
        // the one place where the count grows
        self.len += 1;
    }
}

// The ratio of two polynomials.
#[derive(Drop)]
pub(crate) struct Ratio<E> {
    pub(crate) top: Polynomial<E>,
    pub(crate) bottom: Polynomial<E>,
}

// The two ratios that the decoder keeps.
#[derive(Drop)]
pub(crate) struct State<E> {
    pub(crate) first: Ratio<E>,
    pub(crate) second: Ratio<E>,
}
