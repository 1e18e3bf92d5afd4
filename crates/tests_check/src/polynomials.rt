// Division, middle product and value in both fields, and lengths that do not fit.
use crate::claims::ROWS;
use field::Field;
use gf256::Gf256;
use mersenne31::Mersenne31;
use polynomial::{WrongLength, divide, middle_product, value_at};

#[test]
fn spans(rt: HostRuntime) {
    assert_eq!(rt; <Mersenne31 as Field>::SPAN, 510);
    assert_eq!(rt; <Gf256 as Field>::SPAN, 254);
}

#[test]
fn two_rows(rt: HostRuntime) {
    let mut q = [Mersenne31(9); 4];
    let mut r = [Mersenne31(9); 4];
    assert_eq!(rt; divide(&ROWS, Mersenne31(10), &mut q, &mut r), Ok(()));
    assert_eq!(rt; (q[0].0, q[1].0, q[2].0, q[3].0), (1, 0, 0, 1));
    assert_eq!(rt; (r[0].0, r[1].0, r[2].0, r[3].0), (15, 1, 2, 13));
}

#[test]
fn one_row_has_no_quotient(rt: HostRuntime) {
    let row = [Gf256(7), Gf256(8)];
    let mut r = [Gf256(1); 2];
    assert_eq!(rt; divide(&row, Gf256(3), &mut [], &mut r), Ok(()));
    assert_eq!(rt; (r[0].0, r[1].0), (7, 8));
    let mut short = [Gf256(1); 1];
    assert_eq!(rt;
        divide(&row, Gf256(3), &mut [], &mut short),
        Err(WrongLength)
    );
    assert_eq!(rt; short[0].0, 1);
}

#[test]
fn bytes(rt: HostRuntime) {
    // x·(x + 0x57) at 0x83: 0x83·0x83 + 0xc1
    let p = [Gf256(0), Gf256(0x57), Gf256(1)];
    let square = Gf256(0x83).times(Gf256(0x83));
    assert_eq!(rt; value_at(&p, Gf256(0x83)).0, square.plus(Gf256(0xc1)).0);
    let mut c = [Gf256(9); 3];
    assert_eq!(rt;
        middle_product(&[Gf256(1), Gf256(0x57)], &[Gf256(0x83), Gf256(1)], &mut c),
        Ok(())
    );
    assert_eq!(rt; (c[0].0, c[1].0, c[2].0), (1, 0x83 ^ 0x57, 0xc1));
}

#[test]
fn pairs(rt: HostRuntime) {
    let a = [Mersenne31(6), Mersenne31(42)];
    let b = [Mersenne31(1), Mersenne31(1)];
    let mut c = [Mersenne31(9); 3];
    assert_eq!(rt; middle_product(&a, &b, &mut c), Ok(()));
    assert_eq!(rt; (c[0].0, c[1].0, c[2].0), (6, 48, 42));
    let mut even = [Mersenne31(9); 4];
    assert!(rt; middle_product(&a, &b, &mut even).is_err());
    assert_eq!(rt; (even[0].0, even[3].0), (9, 9));
}
