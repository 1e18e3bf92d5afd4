ghost use Rattle.prover.specs.Owned.{Lends};

use crate::claim::{Claim, Statement, Wires};

// A claim that owns its lists.
#[derive(Drop)]
pub struct OwnedClaim<F> {
    pub m: usize,
    pub n: usize,
    pub matrix: Vec<F>,
    pub vector: Vec<F>,
    pub left: Vec<F>,
    pub right: Vec<F>,
    pub out: Vec<F>,
}

impl<F> OwnedClaim<F> {
    // The same with its lists lent.
    pub fn lent(&self) -> Claim<'_, F>
        ensures { Lends self.now result }
    {
        Claim {
            statement: Statement {
                m: self.m,
                n: self.n,
                matrix: &self.matrix,
                vector: &self.vector,
            },
            wires: Wires {
                left: &self.left,
                right: &self.right,
                out: &self.out,
            },
        }
    }
}
