// A claim whose sizes and lengths fit, and what is computed of it.
ghost use Rattle.std.specs.Prelude.{◌≡◌, ◌+◌, ◌*◌, ◌≤◌, length};

use crate::claim::{Challenges, Claim, Statement, Wires};
use crate::refusal::{Refusal, in_range};
use crate::scale::scale;
use field::Field;
use polynomial::{divide, inner_product, middle_product, solve_twist};

// A claim whose sizes the field allows, with every entry of its matrix and of its wires.
#[derive(Drop)]
pub(crate) struct FullClaim<'a, F: Field> {
    claim: Claim<'a, F>,
    ghost some_rows: { 1 ≤ claim.statement.m },
    ghost few_rows: { claim.statement.m ≤ 64 },
    ghost some_gates: { 1 ≤ claim.statement.n },
    ghost few_gates: { claim.statement.n ≤ 85 },
    ghost near: { 6 * claim.statement.n ≤ F.Field.ops.span },
    ghost matrix_long: { length claim.statement.matrix.now ≡ claim.statement.m * (3 * claim.statement.n + 1) },
    ghost left_long: { length claim.wires.left.now ≡ claim.statement.n },
    ghost right_long: { length claim.wires.right.now ≡ claim.statement.n },
    ghost out_long: { length claim.wires.out.now ≡ claim.statement.n },
}

impl<'a, F: Field> FullClaim<'a, F> {
    ghost use Rattle.std.specs.Prelude.{ℕ, ◌-◌, ◌<◌, map, Some, None, Ok, Err};
    ghost use Rattle.std.specs.List.{between, AllByRecursion};
    ghost use Rattle.algebra.specs.Sums.{sum};
    ghost use Rattle.algebra.specs.Polynomials.{coeff, middle};
    ghost use Rattle.algebra.specs.Relation.{wires, row as row_of, row_error, gate_error};
    ghost use Rattle.algebra.specs.Proofs.{left_scaled};
    ghost use Rattle.prover.specs.Claims.{claim_of};
    ghost use Rattle.prover.specs.Findings.{FirstOff};
    ghost use Rattle.prover.specs.Refusals.{told, refusal_but_vector};
    ghost use Rattle.prover.specs.Replies.{Replied, Solution, reply_cells, reply_in};

    // The claim, or the first refusal that fits it, whatever the length of its vector.
    pub(crate) fn new(claim: Claim<'a, F>) -> Result<FullClaim<'a, F>, Refusal>
        ensures { elim result [
          | Ok full ↦ (refusal_but_vector F.Field.ops.span (claim_of F.Field.mean claim.entry) ≡ None) × (full.claim ≡ claim.entry)
          | Err e ↦ refusal_but_vector F.Field.ops.span (claim_of F.Field.mean claim.entry) ≡ Some (told e)
        ] }
    {
        if !in_range::<F>(claim.statement.m, claim.statement.n) {
            return Err(Refusal::BadSize);
        }
        if !claim.lengths_fit() {
            return Err(Refusal::BadLength);
        }
        Ok(FullClaim { claim })
    }

    // The first row whose entry of `x` is not that of `M·(1, wl, wr, wo)`.
    pub(crate) fn first_row_off(&self) -> Option<usize>
        requires { length self.now.claim.statement.vector.now ≡ self.now.claim.statement.m }
        ensures { FirstOff F.Field.ops self.now.claim.statement.m (row_error F.Field.ops (claim_of F.Field.mean self.now.claim)) result }
    {
        (0..self.claim.statement.m).find(|&i| !self.row_holds(i))
    }

    // The first gate whose output is not the product of its inputs.
    pub(crate) fn first_gate_off(&self) -> Option<usize>
        ensures { FirstOff F.Field.ops self.now.claim.statement.n (gate_error F.Field.ops (claim_of F.Field.mean self.now.claim)) result }
    {
        (0..self.claim.statement.n).find(|&i| !self.gate_holds(i))
    }

    // Whether entry `i` of `x` is that of `M·(1, wl, wr, wo)`.
    fn row_holds(&self, i: usize) -> bool
        requires in_matrix { i < self.now.claim.statement.m }
        requires in_vector { i < length self.now.claim.statement.vector.now }
        ensures { result ≡ F.Field.ops.same (coeff F.Field.ops (map F.Field.mean self.now.claim.statement.vector.now) i) (row_of F.Field.ops (claim_of F.Field.mean self.now.claim) i) }
    {
        self.claim.statement.vector[i].same(self.row_product(i))
    }

    // Whether `wl[i]·wr[i] = wo[i]`.
    fn gate_holds(&self, i: usize) -> bool
        requires { i < self.now.claim.statement.n }
        ensures { result ≡ F.Field.ops.same (F.Field.ops.mul (coeff F.Field.ops (map F.Field.mean self.now.claim.wires.left.now) i) (coeff F.Field.ops (map F.Field.mean self.now.claim.wires.right.now) i))
            (coeff F.Field.ops (map F.Field.mean self.now.claim.wires.out.now) i) }
    {
        let Wires { left, right, out } = self.claim.wires;
        left[i].times(right[i]).same(out[i])
    }

    // Entry `i` of `M·(1, wl, wr, wo)`, by the stretches of the row that stand over 1 and over each wire.
    fn row_product(&self, i: usize) -> F
        requires { i < self.now.claim.statement.m }
        ensures { F.Field.mean result ≡ row_of F.Field.ops (claim_of F.Field.mean self.now.claim) i }
    {
        let n = self.claim.statement.n;
        let Wires { left, right, out } = self.claim.wires;
        let row = self.row(i);
        let left = inner_product(&row[1..n + 1], left);
        let right = inner_product(&row[n + 1..2 * n + 1], right);
        let out = inner_product(&row[2 * n + 1..], out);
        row[0].plus(left).plus(right).plus(out)
    }

    // Row `i` of the matrix.
    fn row(&self, i: usize) -> &'a [F]
        requires { i < self.now.claim.statement.m }
        ensures { result.now ≡ between (i * (3 * self.now.claim.statement.n + 1)) (i * (3 * self.now.claim.statement.n + 1) + (3 * self.now.claim.statement.n + 1)) self.now.claim.statement.matrix.now }
    {
        let Statement { matrix, n, .. } = self.claim.statement;
        let width = 3 * n + 1;
        let start = i * width;
        &matrix[start..start + width]
    }

    // The inner product of a list and `(1, wl, wr, wo)` from entry `from` on.
    fn wires_product(&self, from: usize, list: &[F]) -> F
        requires { from + length list.now ≤ 3 * self.now.claim.statement.n + 1 }
        ensures means { F.Field.mean result ≡ sum F.Field.ops (length list.now)
            (λ j. F.Field.ops.mul (coeff F.Field.ops (map F.Field.mean list.now) j) (wires F.Field.ops (claim_of F.Field.mean self.now.claim) (from + j))) }
        ensures tidy { F.Field.reduced result }
    {
        let mut sum = F::zero();
        for (j, x) in list.iter().enumerate() {
            sum = sum.plus(x.times(self.wire(from + j)));
        }
        sum
    }

    // Entry `j` of the vector `(1, wl, wr, wo)`.
    fn wire(&self, j: usize) -> F
        requires { j < 3 * self.now.claim.statement.n + 1 }
        ensures { F.Field.mean result ≡ wires F.Field.ops (claim_of F.Field.mean self.now.claim) j }
    {
        let n = self.claim.statement.n;
        let Wires { left, right, out } = self.claim.wires;
        if j == 0 {
            F::one()
        } else if j <= n {
            left[j - 1]
        } else if j <= 2 * n {
            right[j - n - 1]
        } else {
            out[j - 2 * n - 1]
        }
    }

    // The cells of its reply.
    pub(crate) fn reply_cells(&self) -> usize
        ensures { result ≡ reply_cells self.now.claim.statement.m self.now.claim.statement.n }
    {
        let Statement { m, n, .. } = self.claim.statement;
        m * (3 * n + 1) + 8 * n
    }

    // Writes the four polynomials of the honest reply, one behind the other.
    pub(crate) fn write_reply(&self, at: Challenges<F>, cells: &mut [F])
        requires { length cells.old ≡ reply_cells self.now.claim.statement.m self.now.claim.statement.n }
        ensures replied { Replied F.Field.ops (claim_of F.Field.mean self.now.claim) (reply_in self.now.claim.statement.m self.now.claim.statement.n (map F.Field.mean cells.new))
            (F.Field.mean at.alpha) (F.Field.mean at.beta) (F.Field.mean at.free1) (F.Field.mean at.free2) }
        ensures tidy { AllByRecursion F.Field.reduced cells.new }
    {
        let n = self.claim.statement.n;
        let width = 3 * n + 1;
        let (r, rest) = cells.split_at_mut(width);
        let (q, rest) = rest.split_at_mut((self.claim.statement.m - 1) * width);
        let (h1, h2) = rest.split_at_mut(6 * n + 1);
        // The lengths fit.
        divide(self.claim.statement.matrix, at.alpha, q, r).unwrap();
        // h1's first cells hold `wl(beta·X)` until h2 is made of it.
        self.write_h2(at.beta, at.free2, &mut h1[..n], h2);
        self.write_h1(r, at.free1, h1);
    }

    // Writes h1, from the middle product of the remainder and `(1, wl, wr, wo)`.
    fn write_h1(&self, r: &[F], free: F, h1: &mut [F])
        requires r_long { length r.now ≡ 3 * self.now.claim.statement.n + 1 }
        requires h1_long { length h1.old ≡ 6 * self.now.claim.statement.n + 1 }
        ensures { Solution F.Field.ops F.Field.mean F.Field.reduced (3 * self.now.claim.statement.n) (F.Field.mean free) (coeff F.Field.ops (map F.Field.mean r.now))
            (wires F.Field.ops (claim_of F.Field.mean self.now.claim)) h1.new }
    {
        self.fill_h1(r, h1);
        // The length and the span fit.
        solve_twist(3 * self.claim.statement.n, free, h1).unwrap();
    }

    // Writes that middle product: entry k pairs what stands from `r[k - d]` and from wire d - k on.
    fn fill_h1(&self, r: &[F], h1: &mut [F])
        requires r_long { length r.now ≡ 3 * self.now.claim.statement.n + 1 }
        requires h1_long { length h1.old ≡ 6 * self.now.claim.statement.n + 1 }
        ensures { (k : ℕ) → k < 6 * self.now.claim.statement.n + 1 → coeff F.Field.ops (map F.Field.mean h1.new) k
            ≡ middle F.Field.ops (3 * self.now.claim.statement.n) (coeff F.Field.ops (map F.Field.mean r.now)) (wires F.Field.ops (claim_of F.Field.mean self.now.claim)) k }
    {
        let d = 3 * self.claim.statement.n;
        for (k, cell) in h1.iter_mut().enumerate() {
            *cell = self.wires_product(
                d.saturating_sub(k),
                &r[k.saturating_sub(d)..(k + 1).min(d + 1)],
            );
        }
    }

    // Writes h2, from the middle product of `wl(beta·X)`, which is put into `scaled` first, and `wr`.
    fn write_h2(&self, beta: F, free: F, scaled: &mut [F], h2: &mut [F])
        requires scaled_long { length scaled.old ≡ self.now.claim.statement.n }
        requires h2_long { length h2.old ≡ 2 * self.now.claim.statement.n - 1 }
        ensures { Solution F.Field.ops F.Field.mean F.Field.reduced (self.now.claim.statement.n - 1) (F.Field.mean free)
            (left_scaled F.Field.ops (claim_of F.Field.mean self.now.claim) (F.Field.mean beta)) (coeff F.Field.ops (map F.Field.mean self.now.claim.wires.right.now)) h2.new }
    {
        scaled.copy_from_slice(self.claim.wires.left);
        scale(beta, scaled);
        // The lengths and the span fit.
        middle_product(scaled, self.claim.wires.right, h2).unwrap();
        solve_twist(self.claim.statement.n - 1, free, h2).unwrap();
    }
}
