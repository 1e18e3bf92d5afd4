// How many polynomials, coefficients and cells there may be.
use crate::asks::{refuses, seen, word};
use dense_oracle::DenseOracle;
use mersenne31::Mersenne31;
use oracle::{Oracle, OracleFault};
use sparse_oracle::SparseOracle;
use std::process::Abort;
use std::test::Fail;

const ONE: Mersenne31 = Mersenne31(1);

const ABSENT: Result<u32, OracleFault> = Err(OracleFault::Absent);

// An oracle of 20 cells: sixteen polynomials, then none more, until it is cleared.
fn sixteen<O: Oracle<Elem = Mersenne31>>(rt: &impl Abort, oracle: &mut O) -> Result<(), Fail> {
    for _ in 0..16u32 {
        oracle.fix(&[ONE])?;
    }
    assert_eq!(rt; seen(oracle), (4, Ok(1), Ok(1), Ok(1)));
    refuses(rt, oracle, &[], OracleFault::Full);
    refuses(rt, oracle, &[ONE; 16385], OracleFault::Full);
    oracle.clear();
    oracle.fix(&[ONE])?;
    assert_eq!(rt; seen(oracle), (19, Ok(1), ABSENT, ABSENT));
    Ok(())
}

// An oracle of 4 cells: more than the free cells, then exactly these, and the empty list.
fn four_cells<O: Oracle<Elem = Mersenne31>>(rt: &impl Abort, oracle: &mut O) -> Result<(), Fail> {
    oracle.fix(&[ONE, Mersenne31(2), Mersenne31(3)])?;
    assert_eq!(rt; oracle.needs(&[ONE, ONE]), Ok(2));
    let more = OracleFault::NoRoom { needed: 2, free: 1 };
    refuses(rt, oracle, &[ONE, ONE], more);
    refuses(rt, oracle, &[ONE; 16385], OracleFault::TooLong);
    oracle.fix(&[Mersenne31(4)])?;
    assert_eq!(rt; seen(oracle), (0, Ok(17), Ok(4), ABSENT));
    oracle.fix(&[])?;
    assert_eq!(rt; word(oracle, 2, 2), Ok(0));
    Ok(())
}

// An oracle of all the cells that are counted: the longest list, and one longer.
fn longest<O: Oracle<Elem = Mersenne31>>(rt: &impl Abort, oracle: &mut O) -> Result<(), Fail> {
    assert_eq!(rt; seen(oracle), (4294967295, ABSENT, ABSENT, ABSENT));
    assert_eq!(rt; oracle.needs(&[ONE; 16384]), Ok(16384));
    assert_eq!(rt; oracle.needs(&[ONE; 16385]), Err(OracleFault::TooLong));
    oracle.fix(&[ONE; 16384])?;
    assert_eq!(rt; word(oracle, 0, 1), Ok(16384));
    assert_eq!(rt; oracle.free(), 4294967295 - 16384);
    refuses(rt, oracle, &[ONE; 16385], OracleFault::TooLong);
    Ok(())
}

#[test]
fn dense_polynomials(rt: HostRuntime) -> Result<(), Fail> {
    sixteen(&rt, &mut DenseOracle::new(rt.alloc(), 20)?)
}

#[test]
fn sparse_polynomials(rt: HostRuntime) -> Result<(), Fail> {
    sixteen(&rt, &mut SparseOracle::new(rt.alloc(), 20)?)
}

#[test]
fn dense_cells(rt: HostRuntime) -> Result<(), Fail> {
    four_cells(&rt, &mut DenseOracle::new(rt.alloc(), 4)?)
}

#[test]
fn sparse_cells(rt: HostRuntime) -> Result<(), Fail> {
    four_cells(&rt, &mut SparseOracle::new(rt.alloc(), 4)?)
}

#[test]
fn dense_coefficients(rt: HostRuntime) -> Result<(), Fail> {
    longest(&rt, &mut DenseOracle::new(rt.alloc(), u64::MAX)?)
}

#[test]
fn sparse_coefficients(rt: HostRuntime) -> Result<(), Fail> {
    longest(&rt, &mut SparseOracle::new(rt.alloc(), u64::MAX)?)
}
