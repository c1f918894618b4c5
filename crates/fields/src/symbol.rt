// An element of a field of at most 256 elements, held as its code in one byte. `Byte` and `P251` are two such fields. What is alike in
// them is one expression each, and a trait for such fields would repeat each member of `Field` for bytes.
ghost use Rattle.std.specs.Prelude.{◌≡◌, ◌<◌, ◌≤◌, MatchOption};

#[derive(Clone, Copy, Debug, PartialEq, Eq)]
pub struct Symbol<const P: u64> {
    pub(crate) code: u8,
    ghost below: { code < P },
}

impl<const P: u64> Symbol<P> {
    // The element with the code n, or nothing when n is not below P.
    pub(crate) fn read(n: u64) -> Option<Symbol<P>>
        requires { P ≤ 256 }
        ensures { MatchOption result (P ≤ n) (λ x. x.code ≡ n) }
    {
        // one test of n; `u8::try_from(n)` would be a second one
        if n < P {
            Some(Symbol { code: n as u8 })
        } else {
            None
        }
    }
}
