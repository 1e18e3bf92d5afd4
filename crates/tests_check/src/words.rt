// Words of p and more stand for their remainders.
use crate::claims::claim;
use field::Field;
use mersenne31::{Mersenne31, P};
use polynomial::value_at;

// 2^32 - 1 = 2p + 1
const ONE: Mersenne31 = Mersenne31(u32::MAX);

#[test]
fn operations(rt: HostRuntime) {
    let zero = Mersenne31(P);
    assert_eq!(rt; zero.same(Mersenne31(0)), true);
    assert_eq!(rt; zero.inverse().is_none(), true);
    assert_eq!(rt; zero.neg().0, 0);
    assert_eq!(rt; ONE.same(Mersenne31(1)), true);
    assert_eq!(rt; ONE.plus(ONE).0, 2);
    assert_eq!(rt; ONE.times(Mersenne31(P + 5)).0, 5);
    assert_eq!(rt; ONE.neg().0, P - 1);
}

#[test]
fn values(rt: HostRuntime) {
    let p = [Mersenne31(P + 5), ONE, Mersenne31(2), Mersenne31(P + 3)];
    assert_eq!(rt; value_at(&p, Mersenne31(P + 2)).0, 39);
    assert_eq!(rt; value_at(&p, Mersenne31(P)).0, 5);
}

#[test]
fn claims(rt: HostRuntime) {
    let matrix = [Mersenne31(P + 5), ONE, Mersenne31(2), Mersenne31(3)];
    let left = [Mersenne31(P + 2)];
    let right = [Mersenne31(3)];
    let out = [Mersenne31(P + 6)];
    assert_eq!(rt;
        claim(1, 1, &matrix, &[Mersenne31(P + 31)], &left, &right, &out).check(),
        Ok(true)
    );
    assert_eq!(rt;
        claim(1, 1, &matrix, &[Mersenne31(P + 32)], &left, &right, &out).check(),
        Ok(false)
    );
}
