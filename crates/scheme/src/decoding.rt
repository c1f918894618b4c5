// Interpolation and decoding with errors, over any field and without a heap.
ghost use Rattle.std.specs.Prelude.{◌≡◌, ◌+◌, ◌*◌, ◌<◌, ◌≤◌, [], ◌∷◌, length, if◌then◌else◌, nat_le};
ghost use Rattle.algebra.specs.Decoder.{plus_multiple as addedMultiple, answer, collected, down, extended, offered, place, raise as raised, run as run_of, start as start_of, step as step_of};
ghost use Rattle.fields.specs.Elements.{Over};
ghost use Rattle.scheme.specs.Held.{Shorter, abscissae, ordinates, polynomial_told, ratio, state};
ghost use Rattle.scheme.specs.Polynomial.{polynomial_value};

use crate::arithmetic::{add_multiple, is_zero, multiply_root, value_at};
use crate::held::{Polynomial, Ratio, State};
use crate::types::Point;
use fields::Field;

// The polynomial 0.
fn nothing<F: Field>() -> Polynomial<F::Elem>
    ensures { result ≡ [] }
{
    Polynomial::empty(F::zero())
}

// The polynomial 1.
pub(crate) fn unit<F: Field>() -> Polynomial<F::Elem>
    ensures { Over F.codes F.code (λ X. result ≡ X.one ∷ []) }
{
    let mut p = nothing::<F>();
    p.push(F::one());
    p
}

// Both parts times (X - z).
fn raise<F: Field>(r: &mut Ratio<F::Elem>, z: F::Elem)
    requires { (length r.old.top < 64) × (length r.old.bottom < 64) }
    ensures { Over F.codes F.code (λ X. ratio X r.new ≡ raised X z (ratio X r.old)) }
{
    multiply_root::<F>(&mut r.top, z);
    multiply_root::<F>(&mut r.bottom, z);
}

// r becomes r + c·other, part by part.
fn combine<F: Field>(r: &mut Ratio<F::Elem>, c: F::Elem, other: &Ratio<F::Elem>)
    ensures { Over F.codes F.code (λ X. ratio X r.new ≡ addedMultiple X (ratio X r.old) c (ratio X other.now)) }
{
    add_multiple::<F>(&mut r.top, c, &other.top);
    add_multiple::<F>(&mut r.bottom, c, &other.bottom);
}

// How far top is from y·bottom at the point (x, y).
fn discrepancy<F: Field>(r: &Ratio<F::Elem>, p: Point<F::Elem>) -> F::Elem
    ensures { F.code result ≡ F.codes.sum (polynomial_value F.codes (polynomial_told F.code r.now.top) (F.code p.x)) (F.codes.negative (F.codes.product (F.code p.y) (polynomial_value F.codes (polynomial_told F.code r.now.bottom) (F.code p.x)))) }
{
    let top = value_at::<F>(&r.top, p.x);
    let bottom = value_at::<F>(&r.bottom, p.x);
    F::add(top, F::neg(F::mul(p.y, bottom)))
}

// Takes one more point in: both discrepancies become zero there.
fn step<F: Field>(s: &mut State<F::Elem>, p: Point<F::Elem>, t: usize)
    requires { (Shorter 64 s.old) × (t ≤ 64) }
    ensures { Over F.codes F.code (λ X. state X s.new ≡ step_of X {I = Unit {0}} (λ _. p.x) (λ _. p.y) t (state X s.old) tt) }
{
    let da = discrepancy::<F>(&s.first, p);
    let db = discrepancy::<F>(&s.second, p);
    if is_zero::<F>(da) {
        raise::<F>(&mut s.second, p.x);
    } else if is_zero::<F>(db) {
        raise::<F>(&mut s.first, p.x);
    } else if s.first.top.len() < s.second.bottom.len() + t {
        combine::<F>(&mut s.second, F::neg(F::mul(db, F::inv(da))), &s.first);
        raise::<F>(&mut s.first, p.x);
    } else {
        combine::<F>(&mut s.first, F::neg(F::mul(da, F::inv(db))), &s.second);
        raise::<F>(&mut s.second, p.x);
    }
}

// The ratios 1/0 and 0/1.
fn start<F: Field>() -> State<F::Elem>
    ensures { Over F.codes F.code (λ X. state X result ≡ start_of X) }
{
    State {
        first: Ratio {
            top: unit::<F>(),
            bottom: nothing::<F>(),
        },
        second: Ratio {
            top: nothing::<F>(),
            bottom: unit::<F>(),
        },
    }
}

// Takes in the points, one after the other.
fn run<F: Field>(points: &[Point<F::Elem>], t: usize) -> State<F::Elem>
    requires { (length points.now < 63) × (t ≤ 64) }
    ensures { Over F.codes F.code (λ X. state X result ≡ run_of X (place X (abscissae points.now)) (place X (ordinates points.now)) t (down (length points.now))) }
{
    let mut s = start::<F>();
    for p in points {
        step::<F>(&mut s, *p, t);
    }
    s
}

// Lets top pass through one more point, and bottom be zero there too.
fn extend<F: Field>(r: &mut Ratio<F::Elem>, p: Point<F::Elem>)
    requires { length r.old.bottom < 64 }
    ensures { Over F.codes F.code (λ X. ratio X r.new ≡ extended X (ratio X r.old) p.x p.y) }
{
    let here = value_at::<F>(&r.top, p.x);
    let other = value_at::<F>(&r.bottom, p.x);
    let c = F::mul(F::add(p.y, F::neg(here)), F::inv(other));
    add_multiple::<F>(&mut r.top, c, &r.bottom);
    multiply_root::<F>(&mut r.bottom, p.x);
}

// Lets top pass through one more point, where e is not zero and it passes through at most t points yet.
fn offer<F: Field>(e: &Polynomial<F::Elem>, t: usize, r: &mut Ratio<F::Elem>, p: Point<F::Elem>)
    requires { length r.old.bottom < 64 }
    ensures { Over F.codes F.code (λ X. ratio X r.new ≡ offered X e.now t (ratio X r.old) p.x p.y) }
{
    if r.top.len() <= t && !is_zero::<F>(value_at::<F>(e, p.x)) {
        extend::<F>(r, p);
    }
}

// The interpolation through the first t + 1 of the points at which e is not zero.
pub(crate) fn read_off<F: Field>(
    e: &Polynomial<F::Elem>,
    points: &[Point<F::Elem>],
    t: usize,
) -> Polynomial<F::Elem>
    requires { (length points.now < 63) × (t ≤ 60) }
    ensures { Over F.codes F.code (λ X. result ≡ (collected X (place X (abscissae points.now)) (place X (ordinates points.now)) e.now t (down (length points.now))).top) }
{
    let mut r = Ratio {
        top: nothing::<F>(),
        bottom: unit::<F>(),
    };
    for p in points {
        offer::<F>(e, t, &mut r, *p);
    }
    r.top
}

// The ratio that shows where the errors are: the first, if its top has at most 2·t + 1 coefficients.
fn chosen<E: Copy>(s: &State<E>, t: usize) -> &Ratio<E>
    requires { t ≤ 20 }
    ensures { result.now ≡ (if nat_le (length s.now.first.top) (t + t + 1) then s.now.first else s.now.second) }
{
    if s.first.top.len() <= t + t + 1 {
        &s.first
    } else {
        &s.second
    }
}

// The one polynomial that can miss at most t points, by the first 3·t + 1 of them.
pub(crate) fn candidate<F: Field>(points: &[Point<F::Elem>], t: usize) -> Polynomial<F::Elem>
    requires { (3 * t + 1 ≤ length points.now) × (t ≤ 20) }
    ensures { Over F.codes F.code (λ X. result ≡ answer X (abscissae points.now) (ordinates points.now) t) }
{
    let points = &points[..3 * t + 1];
    let s = run::<F>(points, t);
    read_off::<F>(&chosen(&s, t).bottom, points, t)
}
