// The field `byte`: the arithmetic of bytes of FIPS 197, section 4.
ghost use Rattle.std.specs.Prelude.{◌≡◌, ◌<◌};
ghost use Rattle.fields.specs.Byte.{byte as byteCodes, product};
ghost use Rattle.fields.specs.ByteLaws.{byte_laws, byte_doublable};
ghost use Rattle.fields.specs.SymbolCodes.{symbol_laws};
ghost use Rattle.std.proofs.Common.{rules};

use crate::field::{Doublable, Field};
use crate::inverses;
use crate::symbol::Symbol;

// The name of the field; its elements are of the type `Symbol<256>`.
pub struct Byte;

impl Field for Byte {
    type Elem = Symbol<256>;

    ghost codes = { byteCodes };

    ghost code = { λ x. x.code };

    ghost laws = { symbol_laws byteCodes byte_laws };

    ghost room = { Prim.search rules };

    fn size() -> u64 {
        256
    }

    // Polynomials over two elements are added bit by bit, without carry.
    fn add(a: Symbol<256>, b: Symbol<256>) -> Symbol<256> {
        Symbol {
            code: a.code ^ b.code,
        }
    }

    // The sum of a byte with itself is zero.
    fn neg(a: Symbol<256>) -> Symbol<256> {
        a
    }

    fn mul(a: Symbol<256>, b: Symbol<256>) -> Symbol<256> {
        Symbol {
            code: multiply(a.code, b.code),
        }
    }

    fn inv(a: Symbol<256>) -> Symbol<256> {
        Symbol {
            code: inverses::BYTE[a.code as usize],
        }
    }

    fn to_code(a: Symbol<256>) -> u64 {
        u64::from(a.code)
    }

    fn from_code(n: u64) -> Option<Symbol<256>> {
        Symbol::read(n)
    }
}

// The product of two bytes. It goes through all eight bits of b whatever they are: no table, and no branch on an operand,
// so that its time tells nothing of a key.
#[tactic(auto, using(crate::specs::ByteLaws::reduced_each_turn, crate::specs::ByteLaws::loop_turn, crate::specs::ByteLaws::ended))]
fn multiply(a: u8, b: u8) -> u8
    ensures { result ≡ product a b }
{
    let mut sum = 0;
    let mut power = a;
    let mut bits = b;
    // three values change in each turn: a `fold` over the three would be no plainer
    for _bit in 0..8u32 {
        sum ^= (bits & 1) * power;
        power = (power << 1) ^ ((power >> 7) * 0x1b);
        bits >>= 1;
    }
    sum
}

impl Doublable for Byte {
    ghost u = { 1 };

    ghost v = { 0x20 };

    ghost doublable = { byte_doublable };

    fn u() -> Symbol<256> {
        Self::one()
    }

    fn v() -> Symbol<256> {
        Symbol { code: 0x20 }
    }
}
