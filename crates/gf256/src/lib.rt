#![tactic(auto)]

ghost use Rattle.std.specs.Prelude.{◌≡◌, ℕ, ◌%◌, ◌<◌, min, true, Some, None, bit_xor};
ghost use Rattle.std.proofs.Common.{refl, ap, ◌∙◌, arith};
ghost use Rattle.gf256.specs.Gf256.{Byte, bytes, inverts, low, shifted, times as multiplied};
ghost use Rattle.gf256.specs.Laws.{laws};
ghost use Rattle.gf256.specs.declared.Gf256.{Gf256};
ghost use Rattle.std.proofs.Math.Nat.{mod-mod};
ghost use Rattle.field.proofs.Numbers.{below_path};

use field::{Encoded, Field};

// A polynomial over the bits, bit i the coefficient of x^i, modulo x^8 + x^4 + x^3 + x + 1 (FIPS 197).
#[derive(Clone, Copy)]
pub struct Gf256(pub u8);

impl Field for Gf256 {
    ghost K = { Byte };

    ghost ops = { bytes };

    ghost mean = { λ x. low x.0 };

    // true of every byte
    ghost reduced = { λ x. x.0 < 256 };

    ghost SPAN = { 254 };

    const SPAN: u32 = 254;

    ghost lawful = { laws };

    ghost spans = { refl };

    ghost canonical = { λ x y hx hy e.
        let lows = ap (λ (k : Byte). k.0) e in
        let bytes : x.0 ≡ y.0 = omega arith in
        let byte : ℕ → Gf256 = λ n. record { 0 = n } in
        ap byte bytes };

    fn zero() -> Gf256 {
        Gf256(0x00)
    }

    fn one() -> Gf256 {
        Gf256(0x01)
    }

    fn gamma() -> Gf256 {
        Gf256(0x03)
    }

    fn plus(self, other: Gf256) -> Gf256 {
        Gf256(sum(self.0, other.0))
    }

    fn neg(self) -> Gf256 {
        Gf256(self.0)
    }

    fn times(self, other: Gf256) -> Gf256 {
        Gf256(product(self.0, other.0))
    }

    fn inverse(self) -> Option<Gf256> {
        let inverted = reciprocal(self.0)?;
        Some(Gf256(inverted))
    }

    fn same(self, other: Gf256) -> bool {
        self.0 == other.0
    }
}

impl Encoded for Gf256 {
    ghost element = { λ w. record { 0 = w % 256 } };

    ghost spelling = { λ x. x.0 % 256 };

    ghost spelled = { λ x. below_path 256 (mod-mod (x.0 % 256) 256 ∙ mod-mod x.0 256) };

    ghost one_spelling = { λ x y e. ap (λ (k : Byte). k.0) e };

    fn from_word(word: u32) -> Gf256 {
        Gf256((word % 256) as u8)
    }

    fn to_word(self) -> u32 {
        u32::from(self.0)
    }
}

fn sum(a: u8, b: u8) -> u8
    ensures { result ≡ bit_xor a b }
{
    a ^ b
}

// x times a polynomial: x^8 is x^4 + x^3 + x + 1.
fn shift(a: u8) -> u8
    ensures { result ≡ shifted a }
{
    (a % 128 * 2) ^ (a / 128 * 0x1b)
}

// `a` times the polynomial of `b`, bit by bit from the lowest.
fn product(mut a: u8, mut b: u8) -> u8
    ensures { result ≡ multiplied a b }
{
    let mut sum: u8 = 0;
    for _i in 0..8u32 {
        sum ^= b % 2 * a;
        a = shift(a);
        b /= 2;
    }
    sum
}

// The inverse, or `None` at 0.
fn reciprocal(a: u8) -> Option<u8>
    ensures { elim result [ None ↦ a ≡ 0 | Some b ↦ multiplied a b ≡ 1 ] }
{
    if a == 0 { None } else { Some(lookup(a)) }
}

// The entry at `a`: their product is 1, or 0 at 0.
fn lookup(a: u8) -> u8
    ensures { multiplied a result ≡ min a 1 }
{
    inverses()[a as usize]
}

// `INVERSES`, with the rule that each entry keeps.
fn inverses() -> &'static [u8; 256]
    ensures { inverts 0 result.now ≡ true }
{
    INVERSES
}

// At each place its inverse; at 0, which has none, 0.
const INVERSES: &[u8; 256] = b"\
    \x00\x01\x8d\xf6\xcb\x52\x7b\xd1\xe8\x4f\x29\xc0\xb0\xe1\xe5\xc7\
    \x74\xb4\xaa\x4b\x99\x2b\x60\x5f\x58\x3f\xfd\xcc\xff\x40\xee\xb2\
    \x3a\x6e\x5a\xf1\x55\x4d\xa8\xc9\xc1\x0a\x98\x15\x30\x44\xa2\xc2\
    \x2c\x45\x92\x6c\xf3\x39\x66\x42\xf2\x35\x20\x6f\x77\xbb\x59\x19\
    \x1d\xfe\x37\x67\x2d\x31\xf5\x69\xa7\x64\xab\x13\x54\x25\xe9\x09\
    \xed\x5c\x05\xca\x4c\x24\x87\xbf\x18\x3e\x22\xf0\x51\xec\x61\x17\
    \x16\x5e\xaf\xd3\x49\xa6\x36\x43\xf4\x47\x91\xdf\x33\x93\x21\x3b\
    \x79\xb7\x97\x85\x10\xb5\xba\x3c\xb6\x70\xd0\x06\xa1\xfa\x81\x82\
    \x83\x7e\x7f\x80\x96\x73\xbe\x56\x9b\x9e\x95\xd9\xf7\x02\xb9\xa4\
    \xde\x6a\x32\x6d\xd8\x8a\x84\x72\x2a\x14\x9f\x88\xf9\xdc\x89\x9a\
    \xfb\x7c\x2e\xc3\x8f\xb8\x65\x48\x26\xc8\x12\x4a\xce\xe7\xd2\x62\
    \x0c\xe0\x1f\xef\x11\x75\x78\x71\xa5\x8e\x76\x3d\xbd\xbc\x86\x57\
    \x0b\x28\x2f\xa3\xda\xd4\xe4\x0f\xa9\x27\x53\x04\x1b\xfc\xac\xe6\
    \x7a\x07\xae\x63\xc5\xdb\xe2\xea\x94\x8b\xc4\xd5\x9d\xf8\x90\x6b\
    \xb1\x0d\xd6\xeb\xc6\x0e\xcf\xad\x08\x4e\xd7\xe3\x5d\x50\x1e\xb3\
    \x5b\x23\x38\x34\x68\x46\x03\x8c\xdd\x9c\x7d\xa0\xcd\x1a\x41\x1c";
