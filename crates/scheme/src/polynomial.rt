// Polynomials by the codes of their coefficients, lowest power first.
ghost use Rattle.std.specs.Prelude.{◌≡◌, ◌<◌, IsTrue};
ghost use Rattle.scheme.specs.Polynomial.{polynomial_value};
ghost use Rattle.scheme.specs.Questions.{all_codes};

use crate::arithmetic::horner;
use fields::Field;

// The element with a code that is known to be below the size.
pub(crate) fn element<F: Field>(n: u64) -> F::Elem
    requires { n < F.codes.size }
    ensures { F.code result ≡ n }
{
    F::from_code(n).unwrap()
}

// The polynomial's value at x.
pub(crate) fn evaluate<F: Field>(coefficients: &[u64], x: F::Elem) -> F::Elem
    requires { IsTrue (all_codes F.codes.size coefficients.now) }
    ensures { F.code result ≡ polynomial_value F.codes coefficients.now (F.code x) }
{
    let mut value = F::zero();
    // a `for`: a closure under `fold` cannot know that a code is below the size
    for c in coefficients.iter().rev() {
        value = horner::<F>(value, element::<F>(*c), x);
    }
    value
}
