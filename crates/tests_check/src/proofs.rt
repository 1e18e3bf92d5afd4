// Claim files from text to proof.
use claim_check::CheckFault;
use claim_file::{FieldName, element, read};
use claim_prove::prove_claim;
use prover::{Challenges, Refusal};
use std::test::Fail;

const TWO_ROWS: &[u8; 85] =
    b"field mersenne31 m 2 n 1 matrix 5 1 2 3 1 0 0 1 vector 31 7 left 2 right 3 out 6 # ok";

#[test]
fn proves_two_rows(rt: HostRuntime) -> Result<(), Fail> {
    let heap = rt.alloc();
    let claim = read(heap, TWO_ROWS)?;
    let at = Challenges {
        alpha: 10,
        beta: 4,
        free1: 70,
        free2: 80,
    };
    let proof = prove_claim(heap, &claim, at)?;
    assert!(rt; proof.r.as_slice() == [15, 1, 2, 13].as_slice());
    assert!(rt; proof.q.as_slice() == [1, 0, 0, 1].as_slice());
    assert_eq!(rt; proof.h1.len(), 7);
    assert_eq!(rt; proof.h1.get(3).copied(), Some(70));
    assert!(rt; proof.h2.as_slice() == [80].as_slice());
    Ok(())
}

#[test]
fn refuses_a_zero_challenge(rt: HostRuntime) -> Result<(), Fail> {
    let heap = rt.alloc();
    let claim = read(heap, TWO_ROWS)?;
    let at = Challenges {
        alpha: 10,
        beta: 0,
        free1: 0,
        free2: 0,
    };
    let fault = prove_claim(heap, &claim, at).err();
    assert_eq!(rt; fault, Some(CheckFault::Refused(Refusal::ZeroChallenge)));
    Ok(())
}

#[test]
fn elements_have_one_spelling(rt: HostRuntime) {
    assert_eq!(rt; element(FieldName::Gf256, b"0xff"), Some(255));
    assert_eq!(rt; element(FieldName::Gf256, b"256"), None);
    assert_eq!(rt;
        element(FieldName::Mersenne31, b"2147483646"),
        Some(2_147_483_646)
    );
    assert_eq!(rt; element(FieldName::Mersenne31, b"2147483647"), None);
    assert_eq!(rt; element(FieldName::Mersenne31, b"-1"), None);
}
