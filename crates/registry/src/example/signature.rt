// The example's signature: a quadratic system, a digest, and who solves it.
use crate::example::print::elements;
use gf256::Gf256;
use prover::OwnedClaim;
use quadratic::System;
use std::alloc::Global;

pub const VARIABLES: usize = 6;

// The variables that each gate multiplies, counted from 0.
pub const PAIRS: [(usize, usize); 6] = [(0, 1), (2, 3), (4, 5), (0, 3), (1, 4), (2, 5)];

// Four equations: a constant, a coefficient for each variable, and one for each pair.
const SYSTEM: &[u8; 52] = b"\
    \x07\x43\x53\x0a\x60\x3c\x14\xf8\xe9\x32\x68\xd4\x72\
    \x56\x4e\xfa\xd3\xfc\x9a\xf6\x98\x27\x7c\xd5\x7a\xf3\
    \xfd\xb5\x61\x94\xa4\x8a\xaf\xff\x2f\xb8\xba\x91\xbf\
    \x98\x9f\x97\xd8\x83\x2c\x57\xb6\xb9\x5c\xf8\xca\x7e";

// The coefficients of an equation.
const TERMS: usize = 1 + VARIABLES + PAIRS.len();

pub const DIGEST: &[u8; 4] = b"\xcd\x79\xb6\x3a";

pub const SIGNATURE: &[u8; 6] = b"\x55\x61\x27\x6c\x93\xb4";

// The same with its third byte forged.
pub const FORGED: &[u8; 6] = b"\x55\x61\x28\x6c\x93\xb4";

// The claim that a signature solves the system.
pub fn encoded(heap: Global, signature: &[u8]) -> anyhow::Result<OwnedClaim<Gf256>> {
    let coefficients = elements(heap, SYSTEM)?;
    let digest = elements(heap, DIGEST)?;
    let signature = elements(heap, signature)?;
    let system = System {
        variables: VARIABLES,
        pairs: &PAIRS,
        coefficients: &coefficients,
    };
    Ok(system.encode(heap, &signature, &digest)?)
}

// The equations, a line each.
pub fn print_system(rt: &HostRuntime) -> anyhow::Result<()> {
    for (i, equation) in SYSTEM.chunks(TERMS).enumerate() {
        print_equation(rt, i.saturating_add(1), equation)?;
        rt.println("")?;
    }
    Ok(())
}

// An equation with its number: its constant, its linear and its quadratic part.
fn print_equation(rt: &HostRuntime, number: usize, equation: &[u8]) -> anyhow::Result<()> {
    let (linear, quadratic) = equation.split_at((1 + VARIABLES).min(equation.len()));
    if let Some((constant, linear)) = linear.split_first() {
        print!(rt; "  y{number} = {constant:02x}")?;
        for (i, c) in linear.iter().enumerate() {
            print!(rt; " + {c:02x}*s{}", i.saturating_add(1))?;
        }
    }
    for (c, (a, b)) in quadratic.iter().zip(PAIRS) {
        print!(rt;
            " + {c:02x}*s{}*s{}",
            a.saturating_add(1),
            b.saturating_add(1)
        )?;
    }
    Ok(())
}
