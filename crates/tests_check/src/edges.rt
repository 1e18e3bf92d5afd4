// The largest numbers of gates, and claims that are true, false and refused.
use crate::claims::claim;
use gf256::Gf256;
use mersenne31::Mersenne31;
use prover::{Finding, Refusal};

const ZERO: Mersenne31 = Mersenne31(0);

const ZERO_BYTE: Gf256 = Gf256(0);

#[test]
fn gates_of_mersenne31(rt: HostRuntime) {
    let most = claim(
        1,
        85,
        &[ZERO; 256],
        &[ZERO],
        &[ZERO; 85],
        &[ZERO; 85],
        &[ZERO; 85],
    )
    .check();
    assert_eq!(rt; most, Ok(true));
    let over = claim(
        1,
        86,
        &[ZERO; 259],
        &[ZERO],
        &[ZERO; 86],
        &[ZERO; 86],
        &[ZERO; 86],
    )
    .check();
    assert_eq!(rt; over, Err(Refusal::BadSize));
}

#[test]
fn gates_of_gf256(rt: HostRuntime) {
    let z = ZERO_BYTE;
    let most = claim(1, 42, &[z; 127], &[z], &[z; 42], &[z; 42], &[z; 42]).check();
    assert_eq!(rt; most, Ok(true));
    let over = claim(1, 43, &[z; 130], &[z], &[z; 43], &[z; 43], &[z; 43]).check();
    assert_eq!(rt; over, Err(Refusal::BadSize));
}

#[test]
fn rows(rt: HostRuntime) {
    let none = claim(0, 1, &[], &[], &[ZERO], &[ZERO], &[ZERO]).check();
    assert_eq!(rt; none, Err(Refusal::BadSize));
    let most = claim(64, 1, &[ZERO; 256], &[ZERO; 64], &[ZERO], &[ZERO], &[ZERO]).check();
    assert_eq!(rt; most, Ok(true));
    let over = claim(65, 1, &[ZERO; 260], &[ZERO; 65], &[ZERO], &[ZERO], &[ZERO]).check();
    assert_eq!(rt; over, Err(Refusal::BadSize));
}

#[test]
fn sizes_before_lengths(rt: HostRuntime) {
    let both = claim(0, 0, &[ZERO], &[], &[], &[], &[]).check();
    assert_eq!(rt; both, Err(Refusal::BadSize));
    let short_wire = claim(1, 1, &[ZERO; 4], &[ZERO], &[ZERO], &[], &[ZERO]).check();
    assert_eq!(rt; short_wire, Err(Refusal::BadLength));
    let long_vector = claim(1, 1, &[ZERO; 4], &[ZERO; 2], &[ZERO], &[ZERO], &[ZERO]).check();
    assert_eq!(rt; long_vector, Err(Refusal::BadLength));
}

#[test]
fn first_failure(rt: HostRuntime) {
    let z = ZERO;
    let one = Mersenne31(1);
    let row = claim(2, 1, &[z; 8], &[z, one], &[one], &[one], &[z]).audit();
    assert_eq!(rt; row, Ok(Finding::RowFails(1)));
    let gate = claim(1, 2, &[z; 7], &[z], &[one, one], &[one, one], &[one, z]).audit();
    assert_eq!(rt; gate, Ok(Finding::GateFails(1)));
}
