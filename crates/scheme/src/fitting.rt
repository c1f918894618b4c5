// The polynomial that passes through points, or through all but a few of them.
ghost use Rattle.std.specs.Prelude.{◌≡◌, ◌+◌, ◌-◌, ◌*◌, ◌≤◌, not, ◌&&◌, map, length, ◌==◌, nat_le};
ghost use Rattle.std.specs.List.{list_all};
ghost use Rattle.scheme.specs.Fitting.{agreements as agreementsOf, decoded, distinct, interpolated, interpolated_at, passes as passesThrough, points_refusal};
ghost use Rattle.scheme.specs.Held.{decode_told, interpolate_told, point_codes, polynomial_told, refusal_of, value_told};

use crate::arithmetic::value_at;
use crate::decoding::{candidate, read_off, unit};
use crate::held::Polynomial;
use crate::types::{Point, PointsFault};
use fields::Field;

// Whether no point has the abscissa x.
fn is_new<F: Field>(points: &[Point<F::Elem>], x: F::Elem) -> bool
    ensures { result ≡ list_all (λ b. not (F.code x == b)) (map (λ p. F.code p.x) points.now) }
{
    points.iter().all(|p| !F::same(x, p.x))
}

// Whether no two points have one abscissa: by recursion, as `distinct` is defined.
fn are_distinct<F: Field>(points: &[Point<F::Elem>]) -> bool
    ensures { result ≡ distinct (map (λ p. F.code p.x) points.now) }
{
    match points.split_first() {
        Some((p, rest)) => is_new::<F>(rest, p.x) && are_distinct::<F>(rest),
        None => true,
    }
}

// Puts the questions about points: from `least` to 32 of them, with distinct abscissae.
fn ask_points<F: Field>(points: &[Point<F::Elem>], least: usize) -> Result<(), PointsFault>
    ensures { refusal_of result ≡ points_refusal (point_codes F.code points.now) least }
{
    if !(least..=32).contains(&points.len()) {
        return Err(PointsFault::Count);
    }
    if !are_distinct::<F>(points) {
        return Err(PointsFault::Repeated);
    }
    Ok(())
}

// Whether f passes through the point p.
fn passes<F: Field>(f: &Polynomial<F::Elem>, p: &Point<F::Elem>) -> bool
    ensures { result ≡ passesThrough F.codes (polynomial_told F.code f.now) (F.code p.now.x, F.code p.now.y) }
{
    F::same(value_at::<F>(f, p.x), p.y)
}

// Through how many of the points f passes.
fn agreements<F: Field>(f: &Polynomial<F::Elem>, points: &[Point<F::Elem>]) -> usize
    ensures { result ≡ agreementsOf F.codes (point_codes F.code points.now) (polynomial_told F.code f.now) }
{
    points.iter().filter(|p| passes::<F>(f, p)).count()
}

// Whether f has t + 1 coefficients and passes through all but at most t of the points.
fn fits<F: Field>(f: &Polynomial<F::Elem>, points: &[Point<F::Elem>], t: usize) -> bool
    requires { (3 * t + 1 ≤ length points.now) × (t ≤ 10) }
    ensures { result ≡ (length f.now == t + 1 && nat_le (length points.now - t) (agreementsOf F.codes (point_codes F.code points.now) (polynomial_told F.code f.now))) }
{
    f.len() == t + 1 && agreements::<F>(f, points) >= points.len() - t
}

// The one polynomial with a coefficient for each point that passes through all of them.
pub fn interpolate<F: Field>(points: &[Point<F::Elem>]) -> Result<Polynomial<F::Elem>, PointsFault>
    ensures { interpolate_told F.code result ≡ interpolated F.codes (point_codes F.code points.now) }
{
    ask_points::<F>(points, 1)?;
    let one = unit::<F>();
    Ok(read_off::<F>(&one, points, points.len() - 1))
}

// The value at x of the polynomial that `interpolate` answers.
pub fn interpolate_at<F: Field>(
    points: &[Point<F::Elem>],
    x: F::Elem,
) -> Result<F::Elem, PointsFault>
    ensures { value_told F.code result ≡ interpolated_at F.codes (point_codes F.code points.now) (F.code x) }
{
    let f = interpolate::<F>(points)?;
    Ok(value_at::<F>(&f, x))
}

// The polynomial of t + 1 coefficients that passes through all but at most t of the points, or nothing where there is none.
pub fn decode<F: Field>(
    points: &[Point<F::Elem>],
    t: usize,
) -> Result<Option<Polynomial<F::Elem>>, PointsFault>
    ensures { decode_told F.code result ≡ decoded F.codes (point_codes F.code points.now) t }
{
    if t > 10 {
        return Err(PointsFault::Count);
    }
    ask_points::<F>(points, 3 * t + 1)?;
    let f = candidate::<F>(points, t);
    Ok(fits::<F>(&f, points, t).then_some(f))
}
