// The built-in example: a multivariate quadratic signature over the field of 256 elements.
mod claim;
mod oracles;
mod print;
mod proof;
mod sessions;
mod signature;

use crate::commands::Ending;
use crate::example::claim::{print_statement, print_verdict, print_wires};
use crate::example::print::print_bytes;
use crate::example::proof::{CELLS, print_proof, proved};
use crate::example::signature::{DIGEST, FORGED, SIGNATURE, encoded, print_system};
use gf256::Gf256;

// Prints the system and the digest; the signature as a claim, what the check finds of it, and its proof; and the forged
// signature's claim and check.
pub fn play(rt: &HostRuntime) -> anyhow::Result<Ending> {
    rt.println(
        "A multivariate quadratic signature over the field of 256 elements, in hexadecimal",
    )?;
    rt.println("")?;
    rt.println("system: 4 equations in the variables s1 to s6")?;
    print_system(rt)?;
    print_bytes(rt, "digest y:", DIGEST)?;
    rt.println("")?;
    genuine(rt)?;
    rt.println("")?;
    forged(rt)?;
    Ok(Ending::Done)
}

// The signature.
fn genuine(rt: &HostRuntime) -> anyhow::Result<()> {
    print_bytes(rt, "signature s:", SIGNATURE)?;
    let encoding = encoded(rt.alloc(), SIGNATURE)?;
    let claim = encoding.lent();
    print_statement(rt, claim.statement)?;
    print_wires(rt, claim.wires)?;
    print_verdict(rt, claim)?;
    let mut cells = [Gf256(0); CELLS];
    print_proof(rt, proved(claim, &mut cells)?.reply)
}

// The same with a byte forged.
fn forged(rt: &HostRuntime) -> anyhow::Result<()> {
    print_bytes(rt, "the same with its third byte forged:", FORGED)?;
    let encoding = encoded(rt.alloc(), FORGED)?;
    let claim = encoding.lent();
    rt.println("claim: matrix and vector are the same")?;
    print_wires(rt, claim.wires)?;
    print_verdict(rt, claim)
}

// Prints the signature's polynomials in oracles of both makes, and its transcript in sessions over them; then the forged
// signature's transcript in sessions.
pub fn play_sessions(rt: &HostRuntime) -> anyhow::Result<Ending> {
    let encoding = encoded(rt.alloc(), SIGNATURE)?;
    let mut cells = [Gf256(0); CELLS];
    let t = proved(encoding.lent(), &mut cells)?;
    oracles::play(rt, t)?;
    sessions::play(rt, t)?;
    sessions::refuse(rt, t)?;
    rt.println("")?;
    play_forged(rt)?;
    Ok(Ending::Done)
}

// The forged signature's transcript in sessions.
fn play_forged(rt: &HostRuntime) -> anyhow::Result<()> {
    print_bytes(rt, "the same with its third byte forged:", FORGED)?;
    let encoding = encoded(rt.alloc(), FORGED)?;
    let mut cells = [Gf256(0); CELLS];
    sessions::play(rt, proved(encoding.lent(), &mut cells)?)
}
