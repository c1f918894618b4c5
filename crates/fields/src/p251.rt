// The field `p251`: the whole numbers modulo 251.
ghost use Rattle.std.specs.Prelude.{◌≡◌, ◌%◌};
ghost use Rattle.fields.specs.P251.{p251 as p251Codes};
ghost use Rattle.fields.specs.P251Laws.{p251_laws, p251_doublable};
ghost use Rattle.fields.specs.SymbolCodes.{symbol_laws};
ghost use Rattle.std.proofs.Common.{rules};

use crate::field::{Doublable, Field};
use crate::inverses;
use crate::symbol::Symbol;

// The name of the field; its elements are of the type `Symbol<251>`.
pub struct P251;

impl Field for P251 {
    type Elem = Symbol<251>;

    ghost codes = { p251Codes };

    ghost code = { λ x. x.code };

    ghost laws = { symbol_laws p251Codes p251_laws };

    ghost room = { Prim.search rules };

    fn size() -> u64 {
        251
    }

    fn add(a: Symbol<251>, b: Symbol<251>) -> Symbol<251> {
        reduce(u16::from(a.code) + u16::from(b.code))
    }

    // In a byte, and not by `reduce`: there the remainder is a comparison.
    fn neg(a: Symbol<251>) -> Symbol<251> {
        Symbol {
            code: (251 - a.code) % 251,
        }
    }

    fn mul(a: Symbol<251>, b: Symbol<251>) -> Symbol<251> {
        reduce(u16::from(a.code) * u16::from(b.code))
    }

    fn inv(a: Symbol<251>) -> Symbol<251> {
        Symbol {
            code: inverses::P251[a.code as usize],
        }
    }

    fn to_code(a: Symbol<251>) -> u64 {
        u64::from(a.code)
    }

    fn from_code(n: u64) -> Option<Symbol<251>> {
        Symbol::read(n)
    }
}

// The element that n is modulo 251.
fn reduce(n: u16) -> Symbol<251>
    ensures { result.code ≡ n % 251 }
{
    Symbol {
        code: (n % 251) as u8,
    }
}

impl Doublable for P251 {
    ghost u = { 0 };

    ghost v = { 250 };

    ghost doublable = { p251_doublable };

    fn u() -> Symbol<251> {
        Self::zero()
    }

    fn v() -> Symbol<251> {
        Symbol { code: 250 }
    }
}
