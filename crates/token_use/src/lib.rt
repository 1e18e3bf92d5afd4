// How the inner-product token is used: each claim that is stated is settled or withdrawn, once.
#![tactic(auto)]

ghost use Rattle.std.specs.Prelude.{◌≡◌, false, if◌then◌else◌, Some, None, Ok, Err};
ghost use Rattle.inner_product.specs.Faults.{told, refusal};
ghost use Rattle.inner_product.specs.Settling.{settles};

use field::Field;
use inner_product::{ClaimFault, InnerProductClaim, Values};

// States a claim and settles it, or withdraws it where it is not wanted.
pub fn settle_if<F: Field>(
    wanted: bool,
    d: usize,
    c: F,
    z: F,
    at: Values<F>,
) -> Result<bool, ClaimFault>
    ensures { elim result [
      | Ok said ↦ (refusal F.Field.ops d (F.Field.mean z) ≡ None)
          × (said ≡ (if wanted then settles F.Field.ops d (F.Field.mean c) (F.Field.mean z) (F.Field.mean at.ya) (F.Field.mean at.yb) (F.Field.mean at.yh) (F.Field.mean at.yh2) else false))
      | Err e ↦ refusal F.Field.ops d (F.Field.mean z) ≡ Some (told e)
    ] }
{
    let claim = InnerProductClaim::state(d, c, z)?;
    if wanted {
        return Ok(claim.settle(at));
    }
    let no = claim.withdraw();
    Ok(no)
}

// States a claim and settles it, and states it again to settle it with a and b exchanged.
pub fn settle_both<F: Field>(
    d: usize,
    c: F,
    z: F,
    at: Values<F>,
) -> Result<(bool, bool), ClaimFault>
    ensures { elim result [
      | Ok both ↦ (refusal F.Field.ops d (F.Field.mean z) ≡ None)
          × (both.0 ≡ settles F.Field.ops d (F.Field.mean c) (F.Field.mean z) (F.Field.mean at.ya) (F.Field.mean at.yb) (F.Field.mean at.yh) (F.Field.mean at.yh2))
          × (both.1 ≡ settles F.Field.ops d (F.Field.mean c) (F.Field.mean z) (F.Field.mean at.yb) (F.Field.mean at.ya) (F.Field.mean at.yh) (F.Field.mean at.yh2))
      | Err e ↦ refusal F.Field.ops d (F.Field.mean z) ≡ Some (told e)
    ] }
{
    let claim = InnerProductClaim::state(d, c, z)?;
    let first = claim.settle(at);
    let again = InnerProductClaim::state(d, c, z)?;
    let second = again.settle(Values {
        ya: at.yb,
        yb: at.ya,
        ..at
    });
    Ok((first, second))
}
