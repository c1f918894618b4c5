// What a finite field is, and one that can be doubled. A field has a type of elements of its own and a fixed size; its
// elements are numbered by the codes from 0 to the size less one, and every call is told by the codes.
ghost use Rattle.std.specs.Prelude.{◌≡◌, ℕ, ◌≤◌, ◌==◌, MatchOption};
ghost use Rattle.fields.specs.Laws.{Codes, DoublableLaws, FieldLaws};
ghost use Rattle.fields.specs.Room.{Small};

pub trait Field {
    // an element
    type Elem: Copy;

    // the size, and sum, negative, product and inverse as functions on codes
    ghost codes: { Codes };

    // the code of an element
    ghost code: { Self.Elem → ℕ };

    // How many elements there are.
    fn size() -> u64
        ensures { result ≡ codes.size };

    // The element with the code 0.
    fn zero() -> Self::Elem
        ensures { code result ≡ 0 }
    {
        Self::from_code(0).unwrap()
    }

    // The element with the code 1.
    fn one() -> Self::Elem
        ensures { code result ≡ 1 }
    {
        Self::from_code(1).unwrap()
    }

    // The sum of two elements.
    fn add(a: Self::Elem, b: Self::Elem) -> Self::Elem
        ensures { code result ≡ codes.sum (code a) (code b) };

    // The element whose sum with a is zero.
    fn neg(a: Self::Elem) -> Self::Elem
        ensures { code result ≡ codes.negative (code a) };

    // The product of two elements.
    fn mul(a: Self::Elem, b: Self::Elem) -> Self::Elem
        ensures { code result ≡ codes.product (code a) (code b) };

    // The element whose product with a is one; the inverse of zero is zero.
    fn inv(a: Self::Elem) -> Self::Elem
        ensures { code result ≡ codes.inverse (code a) };

    // The code of an element.
    fn to_code(a: Self::Elem) -> u64
        ensures { result ≡ code a };

    // The element with the code n, or nothing when n is not below the size.
    fn from_code(n: u64) -> Option<Self::Elem>
        ensures { MatchOption result (codes.size ≤ n) (λ x. code x ≡ n) };

    // Whether two elements are equal; elements need no `==` of their own.
    fn same(a: Self::Elem, b: Self::Elem) -> bool
        ensures { result ≡ (code a == code b) }
    {
        Self::to_code(a) == Self::to_code(b)
    }

    // what each field proves: the laws of a field on codes, and that codes and elements are in bijection
    ghost laws: { FieldLaws Self.Elem codes code };

    // an element is small in memory: it takes no more bytes than the field has elements
    ghost room: { Small Self.Elem.row codes.size };
}

// A field that can be doubled: x·x = u·x + v has no root in it.
pub trait Doublable: Field {
    // the codes of u and v
    ghost u: { ℕ };

    ghost v: { ℕ };

    // The factor of x.
    fn u() -> Self::Elem
        ensures { Self.Field.code result ≡ u };

    // The constant.
    fn v() -> Self::Elem
        ensures { Self.Field.code result ≡ v };

    // what each such field proves
    ghost doublable: { DoublableLaws Self.Field.codes u v };
}
