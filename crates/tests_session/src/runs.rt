// A full run that is accepted and one that is turned down, in each field on each make.
use dense_oracle::DenseOracle;
use field::{Encoded, Field};
use gf256::Gf256;
use ledger::Transcript;
use mersenne31::Mersenne31;
use oracle::Oracle;
use prover::{Challenges, Claim, Layout, Statement, Wires};
use session::{Report, Verdict, run};
use sparse_oracle::SparseOracle;
use std::alloc::Global;
use std::process::Abort;
use std::test::Fail;

// The report of a run over the oracle: a claim of one row and one gate with the honest reply to it.
fn played<F: Encoded, O: Oracle<Elem = F> + Drop>(
    heap: Global,
    oracle: O,
    claim: Claim<'_, F>,
) -> Result<Report, Fail> {
    let at = Challenges {
        alpha: F::from_word(10),
        beta: F::from_word(11),
        free1: F::from_word(7),
        free2: F::from_word(9),
    };
    let layout = Layout::of::<F>(1, 1)?;
    let mut cells = vec![in heap; F::zero(); layout.h2_end]?;
    claim.prove(at, &mut cells)?;
    let Some(reply) = layout.split(&cells) else {
        return Err(Fail::new("the cells are those of a reply"));
    };
    let transcript = Transcript {
        claim,
        reply,
        alpha: at.alpha,
        beta: at.beta,
        z: F::from_word(12),
    };
    Ok(run(oracle, &transcript.calls(heap)?).report())
}

// The matrix (5, 1, 2, 3) and the wires 2, 3, 6: a claim that is true exactly if x is 31.
fn prime<O: Oracle<Elem = Mersenne31> + Drop>(
    heap: Global,
    oracle: O,
    x: u32,
) -> Result<Report, Fail> {
    let claim = Claim {
        statement: Statement {
            m: 1,
            n: 1,
            matrix: &[Mersenne31(5), Mersenne31(1), Mersenne31(2), Mersenne31(3)],
            vector: &[Mersenne31(x)],
        },
        wires: Wires {
            left: &[Mersenne31(2)],
            right: &[Mersenne31(3)],
            out: &[Mersenne31(6)],
        },
    };
    played(heap, oracle, claim)
}

// The matrix (0, 0, 0, 1) and the wires 0x57, 0x83, 0xc1: true exactly if x is 0xc1.
fn byte<O: Oracle<Elem = Gf256> + Drop>(heap: Global, oracle: O, x: u8) -> Result<Report, Fail> {
    let claim = Claim {
        statement: Statement {
            m: 1,
            n: 1,
            matrix: &[Gf256(0), Gf256(0), Gf256(0), Gf256(1)],
            vector: &[Gf256(x)],
        },
        wires: Wires {
            left: &[Gf256(0x57)],
            right: &[Gf256(0x83)],
            out: &[Gf256(0xc1)],
        },
    };
    played(heap, oracle, claim)
}

// A finished run, none of whose calls was refused, has this verdict.
fn found(rt: &impl Abort, report: Report, verdict: Verdict) {
    let finished = Report {
        turn: 12,
        verdict,
        count: 0,
    };
    assert_eq!(rt; report, finished);
}

#[test]
fn numbers(rt: HostRuntime) {
    assert_eq!(rt; Verdict::Accepted.number(), 1);
    assert_eq!(rt; Verdict::TurnedDown.number(), 2);
}

// Where r, q, h1 and h2 of one row and one gate end.
#[test]
fn ends(rt: HostRuntime) -> Result<(), Fail> {
    for layout in [Layout::of::<Mersenne31>(1, 1)?, Layout::of::<Gf256>(1, 1)?] {
        assert_eq!(rt;
            (layout.r_end, layout.q_end, layout.h1_end, layout.h2_end),
            (4, 4, 11, 12)
        );
    }
    Ok(())
}

#[test]
fn primes(rt: HostRuntime) -> Result<(), Fail> {
    let heap = rt.alloc();
    let (yes, no) = (Verdict::Accepted, Verdict::TurnedDown);
    found(&rt, prime(heap, DenseOracle::new(heap, 20)?, 31)?, yes);
    found(&rt, prime(heap, DenseOracle::new(heap, 20)?, 32)?, no);
    found(&rt, prime(heap, SparseOracle::new(heap, 20)?, 31)?, yes);
    found(&rt, prime(heap, SparseOracle::new(heap, 20)?, 32)?, no);
    Ok(())
}

#[test]
fn bytes(rt: HostRuntime) -> Result<(), Fail> {
    let heap = rt.alloc();
    let (yes, no) = (Verdict::Accepted, Verdict::TurnedDown);
    found(&rt, byte(heap, DenseOracle::new(heap, 20)?, 0xc1)?, yes);
    found(&rt, byte(heap, DenseOracle::new(heap, 20)?, 0xc2)?, no);
    found(&rt, byte(heap, SparseOracle::new(heap, 20)?, 0xc1)?, yes);
    found(&rt, byte(heap, SparseOracle::new(heap, 20)?, 0xc2)?, no);
    Ok(())
}
