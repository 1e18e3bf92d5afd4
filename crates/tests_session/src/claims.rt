// Inner-product claims at the edges: the span of the field, and a point that is zero.
use field::Field;
use gf256::Gf256;
use inner_product::{ClaimFault, InnerProductClaim, Values};
use mersenne31::{Mersenne31, P};
use std::test::Fail;

// The number of the refusal of a claim with d at z, where it is refused.
fn refusal<F: Field>(d: usize, z: F) -> Option<u32> {
    let withdrawn = InnerProductClaim::state(d, F::one(), z).map(|claim| claim.withdraw());
    withdrawn.err().map(ClaimFault::number)
}

#[test]
fn refusals(rt: HostRuntime) {
    assert_eq!(rt; refusal(255, Mersenne31(1)), None);
    assert_eq!(rt; refusal(256, Mersenne31(1)), Some(51));
    assert_eq!(rt; refusal(usize::MAX, Mersenne31(0)), Some(51));
    assert_eq!(rt; refusal(255, Mersenne31(P)), Some(22));
    assert_eq!(rt; refusal(127, Gf256(1)), None);
    assert_eq!(rt; refusal(128, Gf256(1)), Some(51));
    assert_eq!(rt; refusal(0, Gf256(0)), Some(22));
}

// With d = 1 and z = 2: 7·yh - yh2 = 2·(ya·yb - c).
#[test]
fn settlements(rt: HostRuntime) -> Result<(), Fail> {
    let (c, z) = (Mersenne31(5), Mersenne31(2));
    for (yh2, balances) in [(0, true), (1, false)] {
        let at = Values {
            ya: Mersenne31(3),
            yb: Mersenne31(4),
            yh: Mersenne31(2),
            yh2: Mersenne31(yh2),
        };
        let said = InnerProductClaim::state(1, c, z)?.settle(at);
        assert_eq!(rt; said, balances);
    }
    Ok(())
}
