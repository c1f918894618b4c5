// The doubling of a field: elements a + b·y with y·y = u·y + v.
ghost use Rattle.fields.specs.Doubled.{doubled as doubledCodes, join};
ghost use Rattle.fields.specs.DoubledFieldLemmas.{twice_laws, twice_small};

use crate::field::{Doublable, Field};

// low + high·y
#[derive(Clone, Copy, Debug, PartialEq, Eq)]
pub struct Twice<E> {
    pub low: E,
    pub high: E,
}

// The field F doubled.
pub struct Doubled<F>(F);

impl<F: Doublable> Field for Doubled<F> {
    type Elem = Twice<F::Elem>;

    ghost codes = { doubledCodes F.Field.codes F.Doublable.u F.Doublable.v };

    ghost code = { λ x. join F.Field.codes.size (F.Field.code x.low) (F.Field.code x.high) };

    ghost laws = { twice_laws F.Field.laws F.Doublable.doublable };

    ghost room = { twice_small F.Elem.row F.Field.codes.size F.Field.laws.on_codes.at_least_33 F.Field.room };

    fn size() -> u64 {
        F::size() * F::size()
    }

    #[tactic(auto, using(crate::specs::DoubledLaws::sum2_at))]
    fn add(a: Twice<F::Elem>, b: Twice<F::Elem>) -> Twice<F::Elem> {
        Twice {
            low: F::add(a.low, b.low),
            high: F::add(a.high, b.high),
        }
    }

    #[tactic(auto, using(crate::specs::DoubledLaws::negative2_at))]
    fn neg(a: Twice<F::Elem>) -> Twice<F::Elem> {
        Twice {
            low: F::neg(a.low),
            high: F::neg(a.high),
        }
    }

    // The product part by part, with u·y + v for y·y.
    #[tactic(auto, using(crate::specs::DoubledLaws::product2_at))]
    fn mul(a: Twice<F::Elem>, b: Twice<F::Elem>) -> Twice<F::Elem> {
        let square = F::mul(a.high, b.high);
        let cross = F::add(F::mul(a.low, b.high), F::mul(a.high, b.low));
        let low = F::add(F::mul(a.low, b.low), F::mul(F::v(), square));
        let high = F::add(cross, F::mul(F::u(), square));
        Twice { low, high }
    }

    // The conjugate over the norm.
    #[tactic(auto, using(crate::specs::DoubledLaws::inverse2_at))]
    fn inv(a: Twice<F::Elem>) -> Twice<F::Elem> {
        let conjugate = F::add(a.low, F::mul(F::u(), a.high));
        let norm = F::add(
            F::mul(a.low, conjugate),
            F::neg(F::mul(F::v(), F::mul(a.high, a.high))),
        );
        let over = F::inv(norm);
        Twice {
            low: F::mul(conjugate, over),
            high: F::mul(F::neg(a.high), over),
        }
    }

    fn to_code(a: Twice<F::Elem>) -> u64 {
        F::to_code(a.low) + F::size() * F::to_code(a.high)
    }

    fn from_code(n: u64) -> Option<Twice<F::Elem>> {
        let p = F::size();
        let low = F::from_code(n % p)?;
        let high = F::from_code(n / p)?;
        Some(Twice { low, high })
    }
}
