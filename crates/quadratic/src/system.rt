ghost use Rattle.std.specs.Prelude.{◌≡◌, ◌+◌, ◌*◌, ◌%◌, ◌^◌, ◌<◌, ◌≤◌, ◌↔◌, map, length, slice_range, Some, None, IsTrue, IfSome, IfNone, OnSome, OnOk, IfErr};
ghost use Rattle.std.specs.Option.{SomeIff};
ghost use Rattle.quadratic.specs.Systems.{system_in, right_side};
ghost use Rattle.quadratic.specs.Sizes.{Named, Exists, Shaped};
ghost use Rattle.quadratic.specs.Answers.{Encodes};
ghost use Rattle.quadratic.specs.Refusals.{told, refusal};

use crate::fault::Fault;
use crate::matrix::{Matrix, Shape};
use crate::position::{first_stray, first_unused};
use crate::signed::Signed;
use crate::vector::fill_vector;
use field::Field;
use prover::OwnedClaim;
use std::alloc::Global;

// A system of quadratic equations: v variables, n pairs of variables to multiply, and for each equation a row of
// 1 + v + n coefficients.
#[derive(Clone, Copy)]
pub struct System<'a, F> {
    pub variables: usize,
    pub pairs: &'a [(usize, usize)],
    pub coefficients: &'a [F],
}

impl<'a, F: Field> System<'a, F> {
    // The right side of equation `k`: its constant, its linear and its quadratic part. `None` where there is no
    // such equation, or the lengths or the pairs do not fit.
    pub fn evaluate(self, signature: &[F], k: usize) -> Option<F>
        ensures { elim result [
          | None ↦ (Exists self.entry.variables self.entry.pairs.now (length self.entry.coefficients.now) (length signature.now) k → ⊥)
          | Some x ↦ Exists self.entry.variables self.entry.pairs.now (length self.entry.coefficients.now) (length signature.now) k
              × (F.Field.mean x ≡ right_side F.Field.ops (system_in F.Field.mean self.entry) (map F.Field.mean signature.now) k)
              × F.Field.reduced x
        ] }
    {
        let signed = Signed::new(self, signature)?;
        let row = self.row(k)?;
        let constant = row[0];
        let linear = signed.linear(&row[1..1 + self.variables]);
        let quadratic = signed.quadratic(&row[1 + self.variables..]);
        Some(constant.plus(linear.plus(quadratic)))
    }

    // The claim that the signature solves the system: true exactly if it does. The digest has an entry for each
    // equation, and the coefficients a row of 1 + v + n for each. Want of memory, or a size that is too large, is
    // answered only where no other fault fits.
    pub fn encode(self, heap: Global, signature: &[F], digest: &[F]) -> Result<OwnedClaim<F>, Fault>
        ensures { Encodes F.Field.ops F.Field.mean self.entry.variables self.entry.pairs.now self.entry.coefficients.now signature.now digest.now result }
    {
        let equations = digest.len();
        self.check(signature.len(), equations)?;
        let shape = self.shape(equations).ok_or(Fault::NoMemory)?;
        let matrix = Matrix {
            system: self,
            equations,
            shape,
        };
        let signed = Signed {
            system: self,
            signature,
        };
        Ok(OwnedClaim {
            m: shape.rows,
            n: self.pairs.len(),
            matrix: matrix.cells(heap)?,
            vector: fill_vector(heap, digest, shape.rows)?,
            left: signed.left(heap)?,
            right: signed.right(heap)?,
            out: signed.products(heap)?,
        })
    }

    // The first refusal that fits the lengths and the pairs.
    fn check(self, signature: usize, equations: usize) -> Result<(), Fault>
        ensures ok { OnOk result (refusal self.entry.variables self.entry.pairs.now (length self.entry.coefficients.now) signature equations ≡ None) }
        ensures err { IfErr result (λ fault. refusal self.entry.variables self.entry.pairs.now (length self.entry.coefficients.now) signature equations ≡ Some (told fault)) }
    {
        if signature != self.variables {
            return Err(Fault::SignatureLength);
        }
        if !self.fills(equations) {
            return Err(Fault::CoefficientsLength);
        }
        if let Some(pair) = first_stray(self.variables, self.pairs) {
            return Err(Fault::StrayPair { pair });
        }
        match first_unused(self.variables, self.pairs) {
            Some(variable) => Err(Fault::UnusedVariable { variable }),
            None => Ok(()),
        }
    }

    // Whether there are 1 + v + n coefficients for each equation; a product that is too large is no length.
    fn fills(self, equations: usize) -> bool
        ensures { IsTrue result ↔ (length self.entry.coefficients.now ≡ equations * (1 + self.entry.variables + length self.entry.pairs.now)) }
    {
        let coefficients = self.coefficients.len();
        if equations == 0 {
            return coefficients == 0;
        }
        let product = self.terms().and_then(|terms| equations.checked_mul(terms));
        product == Some(coefficients)
    }

    // The shape of the matrix, unless a size is too large.
    fn shape(self, equations: usize) -> Option<Shape>
        ensures { IfSome result (λ shape. Shaped self.entry.variables (length self.entry.pairs.now) equations shape.rows shape.cells) }
    {
        // the number of terms is not kept, but must fit too
        let _ = self.terms()?;
        let n = self.pairs.len();
        let rows = equations.checked_add(2 * n)?;
        let cells = rows.checked_mul(3 * n + 1)?;
        Some(Shape { rows, cells })
    }

    // 1 + v + n, the coefficients of an equation, unless it is too large.
    fn terms(self) -> Option<usize>
        ensures { SomeIff result (1 + self.entry.variables + length self.entry.pairs.now < 2 ^ 64) (1 + self.entry.variables + length self.entry.pairs.now) }
    {
        self.variables.checked_add(self.pairs.len())?.checked_add(1)
    }

    // Row `k` of the coefficients, where they are whole rows.
    fn row(self, k: usize) -> Option<&'a [F]>
        ensures none { let terms = 1 + self.entry.variables + length self.entry.pairs.now in
            IfNone result (length self.entry.coefficients.now % terms ≡ 0 → k * terms + terms ≤ length self.entry.coefficients.now → ⊥) }
        ensures whole { OnSome result (length self.entry.coefficients.now % (1 + self.entry.variables + length self.entry.pairs.now) ≡ 0) }
        ensures within { let terms = 1 + self.entry.variables + length self.entry.pairs.now in
            OnSome result (k * terms + terms ≤ length self.entry.coefficients.now) }
        ensures row { let terms = 1 + self.entry.variables + length self.entry.pairs.now in
            IfSome result (λ row. row.now ≡ slice_range self.entry.coefficients.now (k * terms) (k * terms + terms)) }
    {
        let terms = self.terms()?;
        let rows = self.coefficients.len() / terms;
        if self.coefficients.len() % terms != 0 || k >= rows {
            return None;
        }
        Some(&self.coefficients[k * terms..k * terms + terms])
    }
}
