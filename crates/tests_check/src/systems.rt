// A quadratic system: y[0] = 7 + 2·s[0] + 3·s[0]·s[1].
use mersenne31::Mersenne31;
use prover::Finding;
use quadratic::{Fault, System};
use std::test::Fail;

const PAIRS: [(usize, usize); 1] = [(0, 1)];

const SYSTEM: [Mersenne31; 4] = [Mersenne31(7), Mersenne31(2), Mersenne31(0), Mersenne31(3)];

const SIGNATURE: [Mersenne31; 2] = [Mersenne31(5), Mersenne31(11)];

// The system with these variables and pairs.
fn system<'a>(variables: usize, pairs: &'a [(usize, usize)]) -> System<'a, Mersenne31> {
    System {
        variables,
        pairs,
        coefficients: &SYSTEM,
    }
}

#[test]
fn right_sides(rt: HostRuntime) {
    let y = system(2, &PAIRS).evaluate(&SIGNATURE, 0);
    assert_eq!(rt; y.map(|y| y.0), Some(7 + 10 + 165));
    assert_eq!(rt; system(2, &PAIRS).evaluate(&SIGNATURE, 1).is_none(), true);
}

#[test]
fn claims(rt: HostRuntime) -> Result<(), Fail> {
    for (y, found) in [(182, Finding::AllHold), (183, Finding::RowFails(0))] {
        let encoding = system(2, &PAIRS).encode(rt.alloc(), &SIGNATURE, &[Mersenne31(y)])?;
        assert_eq!(rt; encoding.lent().audit(), Ok(found));
    }
    Ok(())
}

#[test]
fn faults(rt: HostRuntime) {
    let heap = rt.alloc();
    let y = [Mersenne31(182)];
    assert_eq!(rt;
        system(3, &PAIRS).encode(heap, &SIGNATURE, &y).err(),
        Some(Fault::SignatureLength)
    );
    assert_eq!(rt;
        system(2, &PAIRS).encode(heap, &SIGNATURE, &[]).err(),
        Some(Fault::CoefficientsLength)
    );
    assert_eq!(rt;
        system(2, &[(0, 2)]).encode(heap, &SIGNATURE, &y).err(),
        Some(Fault::StrayPair { pair: 0 })
    );
    assert_eq!(rt;
        system(2, &[(0, 0)]).encode(heap, &SIGNATURE, &y).err(),
        Some(Fault::UnusedVariable { variable: 1 })
    );
}
