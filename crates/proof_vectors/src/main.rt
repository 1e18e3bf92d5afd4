// Proves claims made of words that follow one another, and prints the polynomials, as `tools/proofs.gp` does by
// other means.
#![tactic(auto)]

ghost use Rattle.std.specs.Prelude.{◌≡◌, ◌+◌, ◌*◌, ◌%◌, ◌^◌};

use anyhow::Context;
use field::{Encoded, Field};
use gf256::Gf256;
use mersenne31::Mersenne31;
use prover::{Challenges, Layout, OwnedClaim};
use std::alloc::{AllocError, Global};
use std::io::{BufWriter, Write};

// A field whose elements are made of words of a sequence.
trait Sequenced: Encoded {
    // The element of a word of the sequence.
    fn of_sequence(word: u32) -> Self;
}

impl Sequenced for Mersenne31 {
    fn of_sequence(word: u32) -> Mersenne31 {
        Mersenne31::from_word(word)
    }
}

// A byte is taken from the middle of a word, where the sequence is least regular.
impl Sequenced for Gf256 {
    fn of_sequence(word: u32) -> Gf256 {
        Gf256::from_word(word / 65536)
    }
}

fn main(rt: HostRuntime) -> anyhow::Result<()> {
    let heap = rt.alloc();
    let mut out = BufWriter::new(heap, rt.stdout())?;
    let mut word = 1;
    write_small::<Mersenne31>(heap, &mut out, &mut word)?;
    write_small::<Gf256>(heap, &mut out, &mut word)?;
    write_proof::<Mersenne31>(heap, &mut out, &mut word, 64, 85)?;
    write_proof::<Gf256>(heap, &mut out, &mut word, 64, 42)?;
    out.flush()?;
    Ok(())
}

// Proves claims of one to four rows and one to five gates.
fn write_small<F: Sequenced>(
    heap: Global,
    out: &mut impl Write,
    word: &mut u32,
) -> anyhow::Result<()> {
    for m in 1..5usize {
        for n in 1..6usize {
            write_proof::<F>(heap, out, word, m, n)?;
        }
    }
    Ok(())
}

// The next word of the sequence.
fn following(word: &mut u32) -> u32
    ensures answer { result ≡ (word.old * 1103515245 + 12345) % 2 ^ 32 }
    ensures after { word.new ≡ result }
{
    *word = word.wrapping_mul(1_103_515_245).wrapping_add(12_345);
    *word
}

// Elements of the next words.
fn list<F: Sequenced>(heap: Global, word: &mut u32, n: usize) -> Result<Vec<F>, AllocError> {
    (0..n)
        .map(|_| F::of_sequence(following(word)))
        .collect(heap)
}

// The first element of the next words that is not zero, or one where there are many zeros.
fn challenge<F: Sequenced>(word: &mut u32) -> F {
    (0..1000u32)
        .map(|_| F::of_sequence(following(word)))
        .find(|x| !x.is_zero())
        .unwrap_or(F::one())
}

// The claim of the next words.
fn next_claim<F: Sequenced>(
    heap: Global,
    word: &mut u32,
    m: usize,
    n: usize,
    entries: usize,
) -> Result<OwnedClaim<F>, AllocError> {
    Ok(OwnedClaim {
        m,
        n,
        matrix: list::<F>(heap, word, entries)?,
        // a prover does not read it
        vector: Vec::new(heap),
        left: list::<F>(heap, word, n)?,
        right: list::<F>(heap, word, n)?,
        out: list::<F>(heap, word, n)?,
    })
}

// Proves the next claim, and writes its polynomials, a line each.
fn write_proof<F: Sequenced>(
    heap: Global,
    out: &mut impl Write,
    word: &mut u32,
    m: usize,
    n: usize,
) -> anyhow::Result<()> {
    let layout = Layout::of::<F>(m, n)?;
    let claim = next_claim::<F>(heap, word, m, n, layout.q_end)?;
    let at = Challenges {
        alpha: challenge::<F>(word),
        beta: challenge::<F>(word),
        free1: F::of_sequence(following(word)),
        free2: F::of_sequence(following(word)),
    };
    // what the cells hold before does not matter
    let mut other = 1;
    let mut cells = list::<F>(heap, &mut other, layout.h2_end)?;
    claim.lent().prove(at, &mut cells)?;
    let reply = layout
        .split(&cells)
        .context("the cells are those of a reply")?;
    writeln!(out, "m {m} n {n}")?;
    write_part(out, "r", reply.r)?;
    write_part(out, "q", reply.q)?;
    write_part(out, "h1", reply.h1)?;
    write_part(out, "h2", reply.h2)
}

// The name of a polynomial and its coefficients.
fn write_part<F: Sequenced>(out: &mut impl Write, name: &str, part: &[F]) -> anyhow::Result<()> {
    write!(out, "{name}")?;
    for x in part {
        write!(out, " {}", x.to_word())?;
    }
    writeln!(out)?;
    Ok(())
}
