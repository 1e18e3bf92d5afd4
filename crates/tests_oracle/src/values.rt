// Zeros, values of both makes, and lists that are fixed and asked at once.
use crate::asks::{refuses, word};
use dense_oracle::DenseOracle;
use gf256::Gf256;
use mersenne31::{Mersenne31, P};
use oracle::{Oracle, OracleFault, recall};
use sparse_oracle::SparseOracle;
use std::process::Abort;
use std::test::Fail;

// The words of zero.
const ZEROS: [Mersenne31; 3] = [Mersenne31(0), Mersenne31(P), Mersenne31(P + P)];

// Zeros between, before and behind two other coefficients: 7·X^2 + 3·X^5.
const GAPS: [Mersenne31; 7] = [
    Mersenne31(0),
    Mersenne31(P),
    Mersenne31(7),
    Mersenne31(0),
    Mersenne31(P),
    Mersenne31(P + 3),
    Mersenne31(P),
];

#[test]
fn zeros_need_no_cells(rt: HostRuntime) -> Result<(), Fail> {
    let mut sparse = SparseOracle::new(rt.alloc(), 0)?;
    assert_eq!(rt; sparse.needs(&ZEROS), Ok(0));
    sparse.fix(&ZEROS)?;
    assert_eq!(rt; word(&sparse, 0, 5), Ok(0));
    let refused = OracleFault::NoRoom { needed: 2, free: 0 };
    refuses(&rt, &mut sparse, &GAPS, refused);
    Ok(())
}

#[test]
fn zeros_need_dense_cells(rt: HostRuntime) -> Result<(), Fail> {
    let mut dense = DenseOracle::new(rt.alloc(), 0)?;
    assert_eq!(rt; dense.needs(&ZEROS), Ok(3));
    let refused = OracleFault::NoRoom { needed: 3, free: 0 };
    refuses(&rt, &mut dense, &ZEROS, refused);
    dense.fix(&[])?;
    assert_eq!(rt; word(&dense, 0, 5), Ok(0));
    Ok(())
}

#[test]
fn both_makes_agree(rt: HostRuntime) -> Result<(), Fail> {
    let mut dense = DenseOracle::new(rt.alloc(), 20)?;
    let mut sparse = SparseOracle::new(rt.alloc(), 20)?;
    let long = [Mersenne31(P - 1); 9];
    dense.fix(&long)?;
    sparse.fix(&long)?;
    dense.fix(&GAPS)?;
    sparse.fix(&GAPS)?;
    assert_eq!(rt; dense.free(), 4);
    assert_eq!(rt; sparse.free(), 9);
    assert_eq!(rt; word(&sparse, 1, 2), Ok(124));
    for x in [0, 1, 2, 3, P - 1, P, P + 2, u32::MAX] {
        assert_eq!(rt; word(&dense, 0, x), word(&sparse, 0, x));
        assert_eq!(rt; word(&dense, 1, x), word(&sparse, 1, x));
    }
    Ok(())
}

#[test]
fn bytes(rt: HostRuntime) -> Result<(), Fail> {
    let p = [Gf256(0), Gf256(0x57), Gf256(0), Gf256(0x83)];
    let mut dense = DenseOracle::new(rt.alloc(), 4)?;
    let mut sparse = SparseOracle::new(rt.alloc(), 2)?;
    dense.fix(&p)?;
    sparse.fix(&p)?;
    assert_eq!(rt; sparse.free(), 0);
    for x in [0, 1, 2, 0x1b, 0xff] {
        assert_eq!(rt; dense.ask(0, Gf256(x))?.0, sparse.ask(0, Gf256(x))?.0);
    }
    Ok(())
}

// A list takes the place of all that stood, and a refused one leaves nothing.
fn recalls<O: Oracle<Elem = Mersenne31>>(rt: &impl Abort, oracle: &mut O) -> Result<(), Fail> {
    oracle.fix(&[Mersenne31(9)])?;
    let value = recall(oracle, &GAPS, Mersenne31(2))?;
    assert_eq!(rt; value.0, 124);
    assert_eq!(rt; word(oracle, 0, 2), Ok(124));
    assert_eq!(rt; word(oracle, 1, 2), Err(OracleFault::Absent));
    let refused = recall(oracle, &[Mersenne31(1); 9], Mersenne31(2)).err();
    assert_eq!(rt; refused, Some(OracleFault::NoRoom { needed: 9, free: 8 }));
    assert_eq!(rt; word(oracle, 0, 2), Err(OracleFault::Absent));
    Ok(())
}

#[test]
fn dense_recalls(rt: HostRuntime) -> Result<(), Fail> {
    recalls(&rt, &mut DenseOracle::new(rt.alloc(), 8)?)
}

#[test]
fn sparse_recalls(rt: HostRuntime) -> Result<(), Fail> {
    recalls(&rt, &mut SparseOracle::new(rt.alloc(), 8)?)
}
