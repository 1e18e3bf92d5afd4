// The proof of the example's claim.
use crate::example::print::print_row;
use crate::example::signature::{DIGEST, PAIRS};
use anyhow::Context;
use gf256::Gf256;
use ledger::Transcript;
use prover::{Challenges, Claim, Layout, Reply};

// The entries of a row of the claim's matrix.
pub const WIDTH: usize = 3 * PAIRS.len() + 1;

// The cells of a proof: a row for each equation and wire position, and eight for each gate.
pub const CELLS: usize = (DIGEST.len() + 2 * PAIRS.len()) * WIDTH + 8 * PAIRS.len();

// The challenges of the proof; its free coefficients are zero.
const AT: Challenges<Gf256> = Challenges {
    alpha: Gf256(0x1d),
    beta: Gf256(0x35),
    free1: Gf256(0),
    free2: Gf256(0),
};

// The last challenge, for a session.
const Z: Gf256 = Gf256(0x57);

// The transcript of a claim, with the honest reply to it, which is written into the cells.
pub fn proved<'a>(
    claim: Claim<'a, Gf256>,
    cells: &'a mut [Gf256; CELLS],
) -> anyhow::Result<Transcript<'a, Gf256>> {
    let layout = Layout::of::<Gf256>(claim.statement.m, claim.statement.n)?;
    claim.prove(AT, cells)?;
    let reply = layout
        .split(cells)
        .context("the cells are those of a reply")?;
    Ok(Transcript {
        claim,
        reply,
        alpha: AT.alpha,
        beta: AT.beta,
        z: Z,
    })
}

// Prints the four polynomials of a proof with their lengths.
pub fn print_proof(rt: &HostRuntime, reply: Reply<'_, Gf256>) -> anyhow::Result<()> {
    println!(rt;
        "proof: alpha = {:02x}, beta = {:02x}, and both free coefficients are 00",
        AT.alpha.0, AT.beta.0
    )?;
    print_part(rt, "r", reply.r)?;
    print_part(rt, "q", reply.q)?;
    print_part(rt, "h1", reply.h1)?;
    print_part(rt, "h2", reply.h2)
}

// A polynomial of a proof with its length, in rows as wide as the matrix.
fn print_part(rt: &HostRuntime, name: &str, part: &[Gf256]) -> anyhow::Result<()> {
    println!(rt; "  {name}, {} coefficients:", part.len())?;
    for row in part.chunks(WIDTH) {
        print_row(rt, "   ", row)?;
    }
    Ok(())
}
