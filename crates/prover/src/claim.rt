ghost use Rattle.std.specs.Prelude.{◌≡◌, ◌≤◌, length, Some, None, Ok, Err};
ghost use Rattle.prover.specs.Claims.{claim_of, all_but_vector};
ghost use Rattle.prover.specs.Refusals.{told};
ghost use Rattle.prover.specs.Findings.{Audited, Checked};
ghost use Rattle.prover.specs.Replies.{Proved, proof_refusal};

use crate::full::FullClaim;
use crate::refusal::Refusal;
use crate::relation::Finding;
use field::Field;

// What is claimed: x = M·(1, wl, wr, wo), with M of m rows of 3n + 1 entries, row by row.
#[derive(Clone, Copy)]
pub struct Statement<'a, F> {
    pub m: usize,
    pub n: usize,
    pub matrix: &'a [F],
    pub vector: &'a [F],
}

// The inputs and outputs of the gates: wl, wr and wo.
#[derive(Clone, Copy)]
pub struct Wires<'a, F> {
    pub left: &'a [F],
    pub right: &'a [F],
    pub out: &'a [F],
}

// A statement with the wires that show it.
#[derive(Clone, Copy)]
pub struct Claim<'a, F> {
    pub statement: Statement<'a, F>,
    pub wires: Wires<'a, F>,
}

// The challenges of a proof and its two free coefficients, as elements or as words.
#[derive(Clone, Copy)]
pub struct Challenges<E> {
    pub alpha: E,
    pub beta: E,
    pub free1: E,
    pub free2: E,
}

impl<'a, F: Field> Claim<'a, F> {
    // Whether `x = M·(1, wl, wr, wo)` and `wl[i]·wr[i] = wo[i]` for each i.
    pub fn check(self) -> Result<bool, Refusal>
        ensures { Checked F.Field.ops (claim_of F.Field.mean self.entry) result }
    {
        Ok(self.audit()? == Finding::AllHold)
    }

    // The same, and where the claim is false the first row or gate that fails.
    pub fn audit(self) -> Result<Finding, Refusal>
        ensures { Audited F.Field.ops (claim_of F.Field.mean self.entry) result }
    {
        let full = FullClaim::new(self)?;
        if self.statement.vector.len() != self.statement.m {
            return Err(Refusal::BadLength);
        }
        if let Some(i) = full.first_row_off() {
            return Ok(Finding::RowFails(i));
        }
        if let Some(i) = full.first_gate_off() {
            return Ok(Finding::GateFails(i));
        }
        Ok(Finding::AllHold)
    }

    // Writes the honest reply from the buffer's first cell on: r, of N = 3n + 1 cells, q, of (m - 1)·N, h1, of
    // 6n + 1, and h2, of 2n - 1. A refused call leaves every cell as it was.
    pub fn prove(self, at: Challenges<F>, buffer: &mut [F]) -> Result<(), Refusal>
        ensures { elim result [
          | Ok _ ↦ (proof_refusal F.Field.ops (claim_of F.Field.mean self.entry) (F.Field.mean at.alpha) (F.Field.mean at.beta) (length buffer.old) ≡ None)
              × Proved F.Field.ops F.Field.mean F.Field.reduced (claim_of F.Field.mean self.entry) (F.Field.mean at.alpha) (F.Field.mean at.beta) (F.Field.mean at.free1) (F.Field.mean at.free2) buffer.old buffer.new
          | Err e ↦ (proof_refusal F.Field.ops (claim_of F.Field.mean self.entry) (F.Field.mean at.alpha) (F.Field.mean at.beta) (length buffer.old) ≡ Some (told e))
              × (buffer.new ≡ buffer.old)
        ] }
    {
        let full = FullClaim::new(self)?;
        if at.alpha.is_zero() || at.beta.is_zero() {
            return Err(Refusal::ZeroChallenge);
        }
        let cells = full.reply_cells();
        if buffer.len() < cells {
            return Err(Refusal::ShortBuffer);
        }
        full.write_reply(at, &mut buffer[..cells]);
        Ok(())
    }

    // Whether all lengths but the vector's are those that the sizes ask for.
    pub(crate) fn lengths_fit(self) -> bool
        requires few_rows { self.statement.m ≤ 64 }
        requires few_gates { self.statement.n ≤ 85 }
        ensures { result ≡ all_but_vector self.entry.statement.m self.entry.statement.n (length self.entry.statement.matrix.now) (length self.entry.wires.left.now) (length self.entry.wires.right.now) (length self.entry.wires.out.now) }
    {
        let n = self.statement.n;
        let wires = self.wires;
        self.statement.matrix.len() == self.statement.m * (3 * n + 1)
            && wires.left.len() == n
            && wires.right.len() == n
            && wires.out.len() == n
    }
}
