// The commands that take arguments.
use crate::options::{Options, element_of};
use anyhow::Context;
use claim_check::{CheckFault, check_text, verdict};
use claim_file::ClaimFile;
use claim_prove::prove_claim;
use prover::{Challenges, Finding};
use std::fs;

const VERSION: &str = "0.1.0";

const HELP: &str = "\
registry checks claims of the Hadamard product relation
    x = M(1, wl, wr, wo),  wl[i]*wr[i] = wo[i]
over the field of 2^31 - 1 elements or the field of 256.

usage:
    registry               play the built-in example, a multivariate signature
    registry check FILE    say whether the claim in FILE is true
    registry prove FILE --alpha A --beta B [--free1 F] [--free2 F]
                           print the honest reply to the claim in FILE
    registry sessions      play the example's transcripts in verifier sessions
    registry --help        this text
    registry --version     the version

check prints true, false, or the refusal by its number and in words. prove
prints the polynomials r, q, h1 and h2, each on a line: its name, and its
coefficients in decimal, the lowest exponent first. A, B and F are elements of
the claim's field, as in FILE; free coefficients that are not given are zero.
A refusal ends with status 1. docs/CLAIM-FILE.md has the format of FILE.";

// How a command ends that could be carried out.
pub enum Ending {
    Done,
    Refused,
}

// Reads the claim in a file and prints the verdict; where the claim is false, also what fails, as a note.
pub fn check(rt: &HostRuntime, path: &str) -> anyhow::Result<Ending> {
    let heap = rt.alloc();
    let Some(text) = contents(rt, path)? else {
        return Ok(Ending::Refused);
    };
    let outcome = check_text(heap, &text);
    rt.println(verdict(heap, outcome)?)?;
    match outcome {
        Ok(Finding::AllHold) => Ok(Ending::Done),
        Ok(found) => {
            eprintln!(rt; "{path}: {found}")?;
            Ok(Ending::Done)
        }
        Err(_) => Ok(Ending::Refused),
    }
}

// Reads the claim in a file and prints the honest reply to it, at the challenges that the options say.
pub fn prove(rt: &HostRuntime, path: &str, words: &[String]) -> anyhow::Result<Ending> {
    let options = Options::of(words).context(
        "prove: an option is not one of those in registry --help",
    )?;
    let Some(text) = contents(rt, path)? else {
        return Ok(Ending::Refused);
    };
    match claim_file::read(rt.alloc(), &text) {
        Ok(claim) => prove_at(rt, &claim, options),
        Err(e) => refuse(rt, CheckFault::Unreadable(e)),
    }
}

fn prove_at(rt: &HostRuntime, claim: &ClaimFile, options: Options<'_>) -> anyhow::Result<Ending> {
    let field = claim.field;
    let wanted = "prove: --alpha and --beta are wanted; see registry --help";
    let at = Challenges {
        alpha: element_of(options.alpha, field)?.context(wanted)?,
        beta: element_of(options.beta, field)?.context(wanted)?,
        free1: element_of(options.free1, field)?.unwrap_or(0),
        free2: element_of(options.free2, field)?.unwrap_or(0),
    };
    match prove_claim(rt.alloc(), claim, at) {
        Ok(proof) => {
            print_polynomial(rt, "r", &proof.r)?;
            print_polynomial(rt, "q", &proof.q)?;
            print_polynomial(rt, "h1", &proof.h1)?;
            print_polynomial(rt, "h2", &proof.h2)?;
            Ok(Ending::Done)
        }
        Err(e) => refuse(rt, e),
    }
}

// A name and coefficients in decimal, on one line.
fn print_polynomial(rt: &HostRuntime, name: &str, words: &[u32]) -> anyhow::Result<()> {
    rt.print(name)?;
    for word in words {
        print!(rt; " {word}")?;
    }
    rt.println("")?;
    Ok(())
}

fn refuse(rt: &HostRuntime, fault: CheckFault) -> anyhow::Result<Ending> {
    println!(rt; "{fault}")?;
    Ok(Ending::Refused)
}

// The bytes of a file. Where it cannot be read, that is told here, since an `anyhow::Error` would cut a long path.
fn contents(rt: &HostRuntime, path: &str) -> anyhow::Result<Option<Vec<u8>>> {
    match fs::read(rt, path) {
        Ok(text) => Ok(Some(text)),
        Err(e) => {
            eprintln!(rt; "registry: {path}: {e}")?;
            Ok(None)
        }
    }
}

// Prints how the program is used.
pub fn help(rt: &HostRuntime) -> anyhow::Result<Ending> {
    rt.println(HELP)?;
    Ok(Ending::Done)
}

// Prints the program's version.
pub fn version(rt: &HostRuntime) -> anyhow::Result<Ending> {
    println!(rt; "registry {VERSION}")?;
    Ok(Ending::Done)
}
