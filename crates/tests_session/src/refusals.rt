// Every refusal of every call: each call of a table has its number, 0 if it is taken, and a refused one moves the count
// alone. With one row an empty quotient is taken, and one zero coefficient is not.
use dense_oracle::DenseOracle;
use ledger::{Call, SessionFault};
use mersenne31::{Mersenne31, P};
use oracle::{Oracle, OracleFault};
use prover::Statement;
use session::{Report, Session, Verdict};
use std::process::Abort;
use std::test::Fail;

// A call, and the number of its refusal where it is refused.
#[derive(Drop)]
struct Step<'a> {
    call: Call<'a, Mersenne31>,
    refusal: Option<u32>,
}

fn taken<'a>(call: Call<'a, Mersenne31>) -> Step<'a> {
    Step {
        call,
        refusal: None,
    }
}

fn refused<'a>(number: u32, call: Call<'a, Mersenne31>) -> Step<'a> {
    Step {
        call,
        refusal: Some(number),
    }
}

// The open of a statement with one gate.
fn open<'a>(m: usize, matrix: &'a [Mersenne31], vector: &'a [Mersenne31]) -> Call<'a, Mersenne31> {
    Call::Open(Statement {
        m,
        n: 1,
        matrix,
        vector,
    })
}

fn draw<'a>(x: u32) -> Call<'a, Mersenne31> {
    Call::Draw(Mersenne31(x))
}

// Up to the draw of beta; `p` has eight entries.
fn openings<'a>(p: &'a [Mersenne31; 8]) -> [Step<'a>; 21] {
    [
        refused(11, Call::Put(&p[0..1])),
        refused(21, draw(1)),
        refused(31, Call::Judge),
        refused(12, open(0, &p[0..4], &p[0..1])),
        refused(12, open(65, &p[0..4], &p[0..1])),
        refused(13, open(1, &p[0..3], &p[0..1])),
        refused(13, open(1, &p[0..4], &p[0..2])),
        refused(13, open(1, &p[0..4], &p[0..0])),
        taken(open(1, &p[0..4], &p[0..1])),
        refused(11, open(1, &p[0..4], &p[0..1])),
        refused(14, Call::Put(&p[0..2])),
        refused(21, draw(1)),
        taken(Call::Put(&p[0..1])),
        taken(Call::Put(&p[0..0])),
        taken(Call::Put(&p[0..1])),
        refused(11, Call::Put(&p[0..1])),
        refused(11, open(1, &p[0..4], &p[0..1])),
        refused(22, draw(0)),
        refused(22, draw(P)),
        taken(draw(10)),
        taken(draw(11)),
    ]
}

// From r on.
fn reply<'a>(p: &'a [Mersenne31; 8]) -> [Step<'a>; 19] {
    [
        refused(14, Call::Put(&p[0..5])),
        taken(Call::Put(&p[0..4])),
        refused(14, Call::Put(&p[7..8])),
        taken(Call::Put(&p[0..0])),
        refused(14, Call::Put(&p[0..8])),
        taken(Call::Put(&p[0..7])),
        refused(14, Call::Put(&p[0..2])),
        refused(21, draw(12)),
        taken(Call::Put(&p[0..1])),
        refused(11, Call::Put(&p[0..1])),
        refused(31, Call::Judge),
        refused(22, draw(P)),
        taken(draw(12)),
        refused(21, draw(12)),
        taken(Call::Judge),
        refused(31, Call::Judge),
        refused(21, draw(12)),
        refused(11, Call::Put(&p[0..0])),
        refused(11, open(1, &p[0..4], &p[0..1])),
    ]
}

fn play(rt: &impl Abort, session: &mut Session<DenseOracle<Mersenne31>>, steps: &[Step<'_>]) {
    for step in steps {
        let before = session.report();
        let refusal = session.call(&step.call).err().map(SessionFault::number);
        let after = session.report();
        assert_eq!(rt; refusal, step.refusal);
        if refusal.is_none() {
            assert_eq!(rt; after.turn, before.turn.saturating_add(1));
            assert_eq!(rt; after.count, before.count);
        } else {
            let count = before.count.saturating_add(1);
            assert_eq!(rt; after, Report { count, ..before });
        }
    }
}

#[test]
fn whole_run(rt: HostRuntime) -> Result<(), Fail> {
    let mut p = [Mersenne31(3); 8];
    p[7] = Mersenne31(0);
    let mut session = Session::new(DenseOracle::new(rt.alloc(), 20)?);
    play(&rt, &mut session, &openings(&p));
    play(&rt, &mut session, &reply(&p));
    let report = session.report();
    let finished = Report {
        turn: 12,
        verdict: Verdict::TurnedDown,
        count: 28,
    };
    assert_eq!(rt; report, finished);
    assert_eq!(rt; session.into_oracle().free(), 1);
    Ok(())
}

#[test]
fn cells(rt: HostRuntime) -> Result<(), Fail> {
    let p = [Mersenne31(3); 4];
    let x = [Mersenne31(3)];
    let statement = Statement {
        m: 1,
        n: 1,
        matrix: &p,
        vector: &x,
    };
    let mut small = Session::new(DenseOracle::new(rt.alloc(), 4)?);
    let fault = OracleFault::NoRoom { needed: 5, free: 4 };
    assert_eq!(rt; small.open(statement), Err(SessionFault::Oracle(fault)));
    assert_eq!(rt; small.into_oracle().free(), 4);
    let mut full = Session::new(DenseOracle::new(rt.alloc(), 5)?);
    full.open(statement)?;
    let none = OracleFault::NoRoom { needed: 1, free: 0 };
    assert_eq!(rt; full.put(&x), Err(SessionFault::Oracle(none)));
    assert_eq!(rt; full.put(&[]), Ok(()));
    assert_eq!(rt; full.into_oracle().free(), 0);
    Ok(())
}
