// Claim files from text to finding.
use claim_check::{CheckFault, check_text};
use claim_file::ReadFault;
use prover::{Finding, Refusal};

#[test]
fn prime_claims(rt: HostRuntime) {
    let heap = rt.alloc();
    let good = b"field mersenne31 m 1 n 1 matrix 5 1 2 3 vector 31 left 2 right 3 out 6";
    assert_eq!(rt; check_text(heap, good), Ok(Finding::AllHold));
    let bad = b"field mersenne31 m 1 n 1 matrix 5 1 2 3 vector 32 left 2 right 3 out 6";
    assert_eq!(rt; check_text(heap, bad), Ok(Finding::RowFails(0)));
}

#[test]
fn byte_claims(rt: HostRuntime) {
    let heap = rt.alloc();
    let good = b"field gf256 m 1 n 1 matrix 0 0 0 1 vector 0xc1 left 0x57 right 0x83 out 0xc1";
    assert_eq!(rt; check_text(heap, good), Ok(Finding::AllHold));
    let gate = b"field gf256 m 1 n 1 matrix 0 0 0 1 vector 0xc2 left 0x57 right 0x83 out 0xc2";
    assert_eq!(rt; check_text(heap, gate), Ok(Finding::GateFails(0)));
}

#[test]
fn faults(rt: HostRuntime) {
    let heap = rt.alloc();
    let size = b"field gf256 m 1 n 43 matrix vector left right out";
    assert_eq!(rt;
        check_text(heap, size),
        Err(CheckFault::Refused(Refusal::BadSize))
    );
    let length = b"field gf256 m 1 n 1 matrix 0 0 0 vector 0 left 0 right 0 out 0";
    assert_eq!(rt;
        check_text(heap, length),
        Err(CheckFault::Refused(Refusal::BadLength))
    );
    let large = b"field gf256\nm 1\nn 1\nmatrix 256";
    assert_eq!(rt;
        check_text(heap, large),
        Err(CheckFault::Unreadable(ReadFault::TooLarge { line: 4 }))
    );
}
