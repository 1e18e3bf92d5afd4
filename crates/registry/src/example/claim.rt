// The claim of the example, and what the direct check finds of it.
use crate::example::print::print_row;
use crate::example::proof::WIDTH;
use claim_check::{CheckFault, verdict};
use gf256::Gf256;
use prover::{Claim, Statement, Wires};

// The claim's sizes, its matrix row by row, and its vector.
pub fn print_statement(rt: &HostRuntime, statement: Statement<'_, Gf256>) -> anyhow::Result<()> {
    println!(rt;
        "claim: m = {} rows, n = {} gates, counted from 0",
        statement.m, statement.n
    )?;
    rt.println("  matrix M, with a column for 1 and for each entry of wl, wr and wo:")?;
    for row in statement.matrix.chunks(WIDTH) {
        print_row(rt, "   ", row)?;
    }
    print_row(rt, "  vector x:", statement.vector)
}

pub fn print_wires(rt: &HostRuntime, wires: Wires<'_, Gf256>) -> anyhow::Result<()> {
    print_row(rt, "  wires wl:", wires.left)?;
    print_row(rt, "        wr:", wires.right)?;
    print_row(rt, "        wo:", wires.out)
}

// Checks the claim, and prints the verdict, and why.
pub fn print_verdict(rt: &HostRuntime, claim: Claim<'_, Gf256>) -> anyhow::Result<()> {
    let heap = rt.alloc();
    match claim.audit() {
        Ok(found) => println!(rt; "check: {}; {found}", verdict(heap, Ok(found))?)?,
        Err(e) => println!(rt; "check: {}", verdict(heap, Err(CheckFault::Refused(e)))?)?,
    }
    Ok(())
}
