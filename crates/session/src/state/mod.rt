ghost use Rattle.std.specs.Prelude.{◌≤◌};

use crate::verdicts::Verdict;
use oracle::Oracle;

mod calls;

// A session: it owns its oracle, in which the polynomials of one transcript come to stand turn by turn.
#[derive(Drop)]
pub struct Session<O: Oracle> {
    oracle: O,
    turn: u8,
    m: usize,
    n: usize,
    alpha: O::Elem,
    beta: O::Elem,
    z: O::Elem,
    verdict: Verdict,
    count: u32,
    ghost rows: { m ≤ 64 },
    ghost gates: { n ≤ 85 },
}
