// The inner-product claim of the verifier: a token that is settled or withdrawn once, and not let go before.
#![tactic(auto)]

ghost use Rattle.std.specs.Prelude.{◌≡◌, true, false, Some, None, Ok, Err, Decides};
ghost use Rattle.inner_product.specs.Faults.{told, words, refusal};
ghost use Rattle.inner_product.specs.Settling.{settles, Settles};

use field::Field;
use polynomial::power;
use std::error::Error;
use std::fmt;

// Why a claim is not stated.
#[derive(Clone, Copy, PartialEq, Eq, Debug)]
pub enum ClaimFault {
    // 51: 2d is above the field's span.
    TooWide,
    // 22: z is zero.
    ZeroPoint,
}

impl ClaimFault {
    // The number of the refusal.
    pub fn number(self) -> u32
        ensures { result ≡ (told self).0 }
    {
        match self {
            ClaimFault::TooWide => 51,
            ClaimFault::ZeroPoint => 22,
        }
    }
}

impl fmt::Display for ClaimFault {
    ghost output = { λ e. Some (words e) };

    fn fmt<W: fmt::Write>(&self, f: &mut fmt::Formatter<W>) -> fmt::Result {
        f.write_str(match self {
            ClaimFault::TooWide => "2d is above the field's span",
            ClaimFault::ZeroPoint => "z is zero",
        })
    }
}

impl Error for ClaimFault {}

// The values that settle a claim: ya = a(z), yb = b(1/z), yh = h(z) and yh2 = h(gamma·z).
#[derive(Clone, Copy)]
pub struct Values<F> {
    pub ya: F,
    pub yb: F,
    pub yh: F,
    pub yh2: F,
}

// The claim that the coefficient at d of a(X)·X^d·b(1/X) is c, to be tested at z. It is spent by `settle` or `withdraw`.
pub struct InnerProductClaim<F: Field> {
    d: usize,
    c: F,
    z: F,
    spent: bool,
}

impl<F: Field> InnerProductClaim<F> {
    // The claim of d, c and z, or the first refusal that fits: 51, then 22.
    pub fn state(d: usize, c: F, z: F) -> Result<InnerProductClaim<F>, ClaimFault>
        ensures { elim result [
          | Ok s ↦ (refusal F.Field.ops d (F.Field.mean z) ≡ None) × (s.d ≡ d) × (s.c ≡ c) × (s.z ≡ z) × (s.spent ≡ false)
          | Err e ↦ refusal F.Field.ops d (F.Field.mean z) ≡ Some (told e)
        ] }
    {
        // Half the span, since 2d may not fit a word.
        if d > F::SPAN as usize / 2 {
            return Err(ClaimFault::TooWide);
        }
        if z.is_zero() {
            return Err(ClaimFault::ZeroPoint);
        }
        Ok(InnerProductClaim {
            d,
            c,
            z,
            spent: false,
        })
    }

    // Whether `gamma^d·yh - yh2 = z^d·(ya·yb - c)`.
    pub fn settle(self, at: Values<F>) -> bool
        ensures tests { result ≡ settles F.Field.ops self.d (F.Field.mean self.c) (F.Field.mean self.z) (F.Field.mean at.ya) (F.Field.mean at.yb) (F.Field.mean at.yh) (F.Field.mean at.yh2) }
        ensures decides { Decides result (Settles F.Field.ops self.d (F.Field.mean self.c) (F.Field.mean self.z) (F.Field.mean at.ya) (F.Field.mean at.yb) (F.Field.mean at.yh) (F.Field.mean at.yh2)) }
    {
        let said = self.balances(at);
        self.spend();
        said
    }

    // Gives the claim up, which says no.
    pub fn withdraw(self) -> bool
        ensures { result ≡ false }
    {
        self.spend();
        false
    }

    // The test of the equation.
    fn balances(&self, at: Values<F>) -> bool
        ensures { result ≡ settles F.Field.ops self.now.d (F.Field.mean self.now.c) (F.Field.mean self.now.z) (F.Field.mean at.ya) (F.Field.mean at.yb) (F.Field.mean at.yh) (F.Field.mean at.yh2) }
    {
        let left = power(F::gamma(), self.d).times(at.yh).plus(at.yh2.neg());
        let right = power(self.z, self.d).times(at.ya.times(at.yb).plus(self.c.neg()));
        left.same(right)
    }

    // Lets the claim go as spent.
    fn spend(mut self) {
        self.spent = true;
    }
}

// What lets a claim go owes that it is spent, which `settle` and `withdraw` alone make it.
impl<F: Field> Drop for InnerProductClaim<F> {
    fn drop(self)
        requires { self.spent ≡ true }
    {
        let InnerProductClaim {
            d: _,
            c: _,
            z: _,
            spent: _,
        } = self;
    }
}
