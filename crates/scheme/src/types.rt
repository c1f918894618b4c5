// What the calls take and answer.
ghost use Rattle.std.specs.Prelude.{◌+◌, ◌*◌, ◌≤◌};

use thiserror::Error;

// Figures that passed their questions. The four facts stand in the type, so that no value can lose them; only the call
// `figures` makes one.
#[derive(Clone, Copy, PartialEq, Eq, Debug)]
pub struct Figures {
    pub(crate) n: usize,
    pub(crate) k: usize,
    pub(crate) t: usize,
    pub(crate) d: usize,
    ghost participants: { (1 ≤ n) × (n ≤ 32) },
    ghost threshold: { (1 ≤ k) × (k ≤ n) },
    ghost altered: { 3 * t + 1 ≤ k },
    ghost symbols: { (1 ≤ d) × (d ≤ 64) },
}

// Which question the call `figures` answered with no.
#[derive(Clone, Copy, PartialEq, Eq, Debug, Error)]
pub enum FiguresFault {
    #[error("n is not from 1 to 32")]
    Participants,
    #[error("k is not from 1 to n")]
    Threshold,
    #[error("3·t + 1 is more than k")]
    Altered,
    #[error("d is not from 1 to 64")]
    KeyLength,
}

// A value and its tag, as codes: what a participant holds for one symbol of the key.
#[derive(Clone, Copy, PartialEq, Eq, Debug, Default)]
pub struct Pair {
    pub value: u64,
    pub tag: u64,
}

// Which question the call `deal` answered with no.
#[derive(Clone, Copy, PartialEq, Eq, Debug, Error)]
pub enum DealFault {
    #[error("there are not d key symbols")]
    KeySymbols,
    #[error("there are not d·(k − 1) value coefficients and d·(t + 1) tag coefficients")]
    Coefficients,
    #[error("the buffer has not n·d pairs")]
    Buffer,
    #[error("a number is not below the size of its field")]
    Code,
    #[error("for k of 2 and more, the highest value coefficient of some place is zero")]
    TopCoefficient,
}

// A point of the plane over a field: a polynomial passes through it where its value at x is y.
#[derive(Clone, Copy, PartialEq, Eq, Debug)]
pub struct Point<E> {
    pub x: E,
    pub y: E,
}

// Why points are refused.
#[derive(Clone, Copy, PartialEq, Eq, Debug, Error)]
pub enum PointsFault {
    #[error("there are too few points, or more than 32")]
    Count,
    #[error("two points have one abscissa")]
    Repeated,
}
