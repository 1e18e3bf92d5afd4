// The example's transcript, played through the verifier's session over oracles of both makes.
use crate::example::oracles::CELLS;
use dense_oracle::DenseOracle;
use gf256::Gf256;
use ledger::{Call, SessionFault, Transcript};
use oracle::{Oracle, OracleFault};
use prover::{Claim, Statement};
use session::{Report, Session, run};
use sparse_oracle::SparseOracle;
use std::alloc::{AllocError, Global};

// Calls that are refused, among some that are not.
fn out_of_order<'a>(t: Transcript<'a, Gf256>) -> [Call<'a, Gf256>; 9] {
    let Claim { statement, wires } = t.claim;
    [
        Call::Judge,
        Call::Put(wires.left),
        Call::Open(Statement { n: 43, ..statement }),
        Call::Open(Statement {
            vector: wires.left,
            ..statement
        }),
        Call::Open(statement),
        Call::Put(t.reply.r),
        Call::Draw(t.alpha),
        Call::Put(wires.left),
        Call::Judge,
    ]
}

// Plays the transcript over both makes.
pub fn play(rt: &HostRuntime, t: Transcript<'_, Gf256>) -> anyhow::Result<()> {
    let heap = rt.alloc();
    let calls = t.calls(heap)?;
    println!(rt; "session over a dense oracle, z = {:02x}", t.z.0)?;
    follow(rt, DenseOracle::new(heap, CELLS)?, &calls)?;
    print_verdict(rt, run(DenseOracle::new(heap, CELLS)?, &calls).report())?;
    println!(rt; "session over a sparse oracle, z = {:02x}", t.z.0)?;
    follow(rt, SparseOracle::new(heap, CELLS)?, &calls)?;
    print_verdict(rt, run(SparseOracle::new(heap, CELLS)?, &calls).report())
}

// Plays calls out of order, and one that finds no room.
pub fn refuse(rt: &HostRuntime, t: Transcript<'_, Gf256>) -> anyhow::Result<()> {
    let heap = rt.alloc();
    rt.println("calls out of order, over a dense oracle")?;
    follow(rt, DenseOracle::new(heap, CELLS)?, &out_of_order(t))?;
    rt.println("the transcript over an oracle of 300 cells")?;
    follow(rt, DenseOracle::new(heap, 300)?, &t.calls(heap)?[0..2])
}

// Makes the calls one by one on a new session, and prints each with its answer and the report after it.
fn follow<O: Oracle<Elem = Gf256> + Drop>(
    rt: &HostRuntime,
    oracle: O,
    calls: &[Call<'_, Gf256>],
) -> anyhow::Result<()> {
    let mut session = Session::new(oracle);
    for call in calls {
        let answer = session.call(call);
        print_call(rt, call)?;
        print_answer(rt, answer)?;
        print_report(rt, session.report())?;
    }
    Ok(())
}

fn print_call(rt: &HostRuntime, call: &Call<'_, Gf256>) -> anyhow::Result<()> {
    match call {
        Call::Open(s) => {
            println!(rt;
                "  open m = {}, n = {}, {} entries",
                s.m,
                s.n,
                s.matrix.len()
            )?;
        }
        Call::Put(p) => println!(rt; "  put {} coefficients", p.len())?,
        Call::Draw(x) => println!(rt; "  draw {:02x}", x.0)?,
        Call::Judge => rt.println("  judge")?,
    }
    Ok(())
}

fn print_answer(rt: &HostRuntime, answer: Result<(), SessionFault>) -> anyhow::Result<()> {
    match answer {
        Ok(()) => rt.print("    taken; ")?,
        Err(fault) => print!(rt; "    {}; ", refusal(rt.alloc(), fault)?)?,
    }
    Ok(())
}

fn print_report(rt: &HostRuntime, report: Report) -> anyhow::Result<()> {
    println!(rt;
        "turn {}, verdict {}, {} refused",
        report.turn,
        report.verdict.number(),
        report.count
    )?;
    Ok(())
}

// A refusal by its numbers, from outside in, and in words.
fn refusal(heap: Global, fault: SessionFault) -> Result<String, AllocError> {
    match fault {
        SessionFault::Oracle(e @ OracleFault::NoRoom { .. }) => format!(in heap;
            "refused 15.{}: {e}",
            e.number()
        ),
        SessionFault::Oracle(e) => format!(in heap; "refused 15.{}: {fault}", e.number()),
        _ => format!(in heap; "refused {}: {fault}", fault.number()),
    }
}

// The verdict of a whole run.
fn print_verdict(rt: &HostRuntime, report: Report) -> anyhow::Result<()> {
    println!(rt; "verdict: {}", report.verdict)?;
    Ok(())
}
