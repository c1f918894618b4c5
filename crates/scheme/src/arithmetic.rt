// Arithmetic of polynomials on their coefficients.
ghost use Rattle.std.specs.Prelude.{◌≡◌, ◌<◌, [], ◌∷◌, ◌++◌, length, T};
ghost use Rattle.algebra.specs.Polynomial.{lin, plus, scale, times_root};
ghost use Rattle.fields.specs.Elements.{Over};
ghost use Rattle.scheme.specs.Held.{polynomial_told};
ghost use Rattle.scheme.specs.Polynomial.{polynomial_value};

use crate::held::Polynomial;
use fields::Field;

// Whether a is zero.
pub(crate) fn is_zero<F: Field>(a: F::Elem) -> bool
    ensures { (T result → F.code a ≡ 0) × (F.code a ≡ 0 → T result) }
{
    F::same(a, F::zero())
}

// A turn of Horner's rule: c + x·value.
pub(crate) fn horner<F: Field>(value: F::Elem, c: F::Elem, x: F::Elem) -> F::Elem
    ensures { F.code result ≡ F.codes.sum (F.code c) (F.codes.product (F.code x) (F.code value)) }
{
    F::add(c, F::mul(x, value))
}

// The polynomial's value at x.
pub fn value_at<F: Field>(f: &Polynomial<F::Elem>, x: F::Elem) -> F::Elem
    ensures { F.code result ≡ polynomial_value F.codes (polynomial_told F.code f.now) (F.code x) }
{
    f.as_slice()
        .iter()
        .rev()
        .fold(F::zero(), |value, c| horner::<F>(value, *c, x))
}

// The coefficients f become those of b + (X - a)·f, all but the last: that one is the result.
fn times_linear<F: Field>(f: &mut [F::Elem], a: F::Elem, b: F::Elem) -> F::Elem
    ensures { Over F.codes F.code (λ X. f.new ++ result ∷ [] ≡ lin X a b f.old) }
{
    let mut before = b;
    for c in f.iter_mut() {
        let here = *c;
        *c = F::add(before, F::neg(F::mul(a, here)));
        before = here;
    }
    before
}

// p becomes (X - z)·p.
pub(crate) fn multiply_root<F: Field>(p: &mut Polynomial<F::Elem>, z: F::Elem)
    requires { length p.old < 64 }
    ensures { Over F.codes F.code (λ X. p.new ≡ times_root X z p.old) }
{
    if p.len > 0 {
        let last = times_linear::<F>(&mut p.coefficients[..p.len], z, F::zero());
        p.push(last);
    }
}

// p becomes p + c·r: p grows in the loop, so it is written by index.
pub(crate) fn add_multiple<F: Field>(
    p: &mut Polynomial<F::Elem>,
    c: F::Elem,
    r: &Polynomial<F::Elem>,
)
    ensures { Over F.codes F.code (λ X. p.new ≡ plus X p.old (scale X c r.now)) }
{
    for (i, b) in r.as_slice().iter().enumerate() {
        let more = F::mul(c, *b);
        if i < p.len {
            p.coefficients[i] = F::add(p.coefficients[i], more);
        } else {
            p.push(more);
        }
    }
}
