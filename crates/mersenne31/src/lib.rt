#![tactic(auto)]

ghost use Rattle.std.specs.Prelude.{◌≡◌, ℕ, ◌+◌, ◌-◌, ◌*◌, ◌%◌, ◌<◌, Some, None};
ghost use Rattle.std.proofs.Common.{refl, ap, arith};
ghost use Rattle.mersenne31.specs.Mersenne31.{Prime, Remainder, modulo, p, rem};
ghost use Rattle.mersenne31.specs.Laws.{laws};
ghost use Rattle.mersenne31.specs.declared.Mersenne31.{Mersenne31};
ghost use Rattle.std.proofs.Math.Nat.{mod-mod};
ghost use Rattle.field.proofs.Numbers.{below_path};

use field::{Encoded, Field};

// The prime 2^31 - 1.
pub const P: u32 = 2_147_483_647;

// The modulus, which is prime.
pub fn modulus() -> u32
    ensures value { result ≡ p }
    ensures prime { Prime result }
{
    P
}

// A word that stands for its remainder by `P`.
#[derive(Clone, Copy)]
pub struct Mersenne31(pub u32);

impl Field for Mersenne31 {
    ghost K = { Remainder };

    ghost ops = { modulo };

    ghost mean = { λ x. rem x.0 };

    ghost reduced = { λ x. x.0 < p };

    ghost SPAN = { 510 };

    const SPAN: u32 = 510;

    ghost lawful = { laws };

    ghost spans = { refl };

    ghost canonical = { λ x y hx hy e.
        let rems = ap (λ (k : Remainder). k.0) e in
        let words : x.0 ≡ y.0 = omega arith in
        let word : ℕ → Mersenne31 = λ n. record { 0 = n } in
        ap word words };

    fn zero() -> Mersenne31 {
        Mersenne31(0)
    }

    fn one() -> Mersenne31 {
        Mersenne31(1)
    }

    fn gamma() -> Mersenne31 {
        Mersenne31(7)
    }

    fn plus(self, other: Mersenne31) -> Mersenne31 {
        Mersenne31(sum(self.0, other.0))
    }

    fn neg(self) -> Mersenne31 {
        Mersenne31(opposite(self.0))
    }

    fn times(self, other: Mersenne31) -> Mersenne31 {
        Mersenne31(product(self.0, other.0))
    }

    fn inverse(self) -> Option<Mersenne31> {
        let inverted = reciprocal(self.0)?;
        Some(Mersenne31(inverted))
    }

    fn same(self, other: Mersenne31) -> bool {
        self.0 % P == other.0 % P
    }
}

impl Encoded for Mersenne31 {
    ghost element = { λ w. record { 0 = w } };

    ghost spelling = { λ x. x.0 % p };

    ghost spelled = { λ x. below_path p (mod-mod x.0 p) };

    ghost one_spelling = { λ x y e. ap (λ (k : Remainder). k.0) e };

    fn from_word(word: u32) -> Mersenne31 {
        Mersenne31(word)
    }

    fn to_word(self) -> u32 {
        remainder(self.0)
    }
}

// 2^31, whose remainder by `P` is 1.
const FOLD: u64 = 0x8000_0000;

// The remainder by `P`: what stands above `FOLD` is added to what stands below, twice.
fn reduce(word: u64) -> u32
    ensures { result ≡ word % p }
{
    let once = word % FOLD + word / FOLD;
    let twice = (once % FOLD + once / FOLD) as u32;
    if twice >= P { twice - P } else { twice }
}

fn remainder(word: u32) -> u32
    ensures { result ≡ word % p }
{
    word % P
}

fn sum(a: u32, b: u32) -> u32
    ensures { result ≡ (a + b) % p }
{
    reduce(a as u64 + b as u64)
}

fn opposite(a: u32) -> u32
    ensures { result ≡ (p - a % p) % p }
{
    (P - a % P) % P
}

fn product(a: u32, b: u32) -> u32
    ensures { result ≡ (a * b) % p }
{
    reduce(a as u64 * b as u64)
}

// The inverse by `P`, or `None` at a multiple of `P`: `a * factor` leaves `left`, which falls to 1.
fn reciprocal(a: u32) -> Option<u32>
    ensures { elim result [ None ↦ a % p ≡ 0 | Some b ↦ (b < p) × ((a * b) % p ≡ 1) ] }
{
    let mut left = a % P;
    if left == 0 {
        return None;
    }
    let mut factor: u32 = 1;
    while left > 1 {
        factor = product(factor, P - P / left);
        left = P % left;
    }
    Some(factor)
}
