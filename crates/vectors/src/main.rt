#![tactic(auto)]

ghost use Rattle.std.specs.Prelude.{◌≡◌, ◌+◌, ◌*◌, ◌%◌, ◌^◌};

use field::{Encoded, Field};
use gf256::Gf256;
use mersenne31::{Mersenne31, P};
use std::io;
use std::io::{BufWriter, Write};

const EDGES: [u32; 7] = [0, 1, 2, P - 1, P, P + 1, u32::MAX];

// Prints products and inverses in both fields, as `tools/vectors.gp` does by other means.
fn main(rt: HostRuntime) -> io::Result<()> {
    let mut out = BufWriter::new(rt.alloc(), rt.stdout())?;
    write_bytes(&mut out)?;
    write_words(&mut out)?;
    out.flush()
}

// For each byte a line of its products with every byte, and last a line of all inverses.
fn write_bytes(out: &mut impl Write) -> io::Result<()> {
    for a in 0..256u32 {
        for b in 0..256u32 {
            let product = Gf256::from_word(a).times(Gf256::from_word(b));
            write!(out, "{:02x}", product.0)?;
        }
        writeln!(out)?;
    }
    for a in 0..256u32 {
        match Gf256::from_word(a).inverse() {
            None => write!(out, "--")?,
            Some(inverse) => write!(out, "{:02x}", inverse.0)?,
        }
    }
    writeln!(out)
}

// Every two of the words at the edges, and then each of 4000 words with the one that follows it.
fn write_words(out: &mut impl Write) -> io::Result<()> {
    for a in EDGES {
        for b in EDGES {
            write_pair(out, a, b)?;
        }
    }
    let mut word: u32 = 1;
    for _ in 0..4000u32 {
        let next = following(word);
        write_pair(out, word, next)?;
        word = next;
    }
    Ok(())
}

// A line of two words, their product and the inverse of the first.
fn write_pair(out: &mut impl Write, a: u32, b: u32) -> io::Result<()> {
    let x = Mersenne31::from_word(a);
    let product = x.times(Mersenne31::from_word(b));
    write!(out, "{a} {b} {} ", product.0)?;
    match x.inverse() {
        None => writeln!(out, "-"),
        Some(inverse) => writeln!(out, "{}", inverse.0),
    }
}

fn following(word: u32) -> u32
    ensures { result ≡ (word * 1103515245 + 12345) % 2 ^ 32 }
{
    word.wrapping_mul(1_103_515_245).wrapping_add(12_345)
}
