ghost use Rattle.std.specs.Prelude.{◌≡◌};
ghost use Rattle.prover.specs.Claims.{claim_of, claimed};

// Claims of lent lists.
use mersenne31::Mersenne31;
use prover::{Claim, Statement, Wires};

// Two rows of four entries: (5, 1, 2, 3) and (1, 0, 0, 1).
pub const ROWS: [Mersenne31; 8] = [
    Mersenne31(5),
    Mersenne31(1),
    Mersenne31(2),
    Mersenne31(3),
    Mersenne31(1),
    Mersenne31(0),
    Mersenne31(0),
    Mersenne31(1),
];

// The claim of these sizes, matrix, vector and three wires.
pub fn claim<'a, F>(
    m: usize,
    n: usize,
    matrix: &'a [F],
    vector: &'a [F],
    left: &'a [F],
    right: &'a [F],
    out: &'a [F],
) -> Claim<'a, F>
    ensures { claim_of (λ x. x) result ≡ claimed (λ x. x) m n matrix.now vector.now left.now right.now out.now }
{
    Claim {
        statement: Statement {
            m,
            n,
            matrix,
            vector,
        },
        wires: Wires { left, right, out },
    }
}
