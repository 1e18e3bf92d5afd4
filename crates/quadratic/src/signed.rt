ghost use Rattle.std.specs.Prelude.{◌≡◌, ℕ, All, ◌+◌, ◌<◌, map, length, IfOk, IfSome, IfNone};
ghost use Rattle.std.specs.List.{range_with_len};
ghost use Rattle.algebra.specs.Sums.{sum};
ghost use Rattle.algebra.specs.Polynomials.{coeff};
ghost use Rattle.quadratic.specs.Systems.{product};
ghost use Rattle.quadratic.specs.Sizes.{Named};
ghost use Rattle.quadratic.specs.Encodings.{carried};

use crate::position::first_stray;
use crate::system::System;
use field::Field;
use polynomial::inner_product;
use std::alloc::{AllocError, Global};

// A system with a signature that has an entry for each variable, where every pair names two variables.
#[derive(Drop)]
pub(crate) struct Signed<'a, F> {
    pub(crate) system: System<'a, F>,
    pub(crate) signature: &'a [F],
    ghost fits: { Named system.variables system.pairs.now (length signature.now) },
    ghost named: { All (λ (q : ℕ × ℕ). (q.0 < system.variables) × (q.1 < system.variables)) system.pairs.now },
}

impl<'a, F: Field> Signed<'a, F> {
    // A system with a signature, where they fit one another.
    pub(crate) fn new(system: System<'a, F>, signature: &'a [F]) -> Option<Self>
        ensures none { IfNone result (Named system.entry.variables system.entry.pairs.now (length signature.now) → ⊥) }
        ensures system { IfSome result (λ s. s.system ≡ system.entry) }
        ensures signature { IfSome result (λ s. s.signature.now ≡ signature.now) }
    {
        if signature.len() != system.variables
            || first_stray(system.variables, system.pairs).is_some()
        {
            return None;
        }
        Some(Signed { system, signature })
    }

    // The sum of the weights times the signature's entries.
    pub(crate) fn linear(&self, weights: &[F]) -> F
        requires { length weights.now ≡ self.now.system.variables }
        ensures { F.Field.mean result ≡ sum F.Field.ops self.now.system.variables
            (λ i. F.Field.ops.mul (coeff F.Field.ops (map F.Field.mean weights.now) i) (coeff F.Field.ops (map F.Field.mean self.now.signature.now) i)) }
    {
        inner_product(weights, self.signature)
    }

    // The sum of the weights times the products of the pairs.
    pub(crate) fn quadratic(&self, weights: &[F]) -> F
        requires { length weights.now ≡ length self.now.system.pairs.now }
        ensures { F.Field.mean result ≡ sum F.Field.ops (length self.now.system.pairs.now)
            (λ g. F.Field.ops.mul (coeff F.Field.ops (map F.Field.mean weights.now) g) (product F.Field.ops self.now.system.pairs.now (map F.Field.mean self.now.signature.now) g)) }
    {
        let mut sum = F::zero();
        for (weight, pair) in weights.iter().zip(self.system.pairs) {
            sum = sum.plus(weight.times(self.product(*pair)));
        }
        sum
    }

    // The value of the first variable of each pair.
    pub(crate) fn left(&self, heap: Global) -> Result<Vec<F>, AllocError>
        ensures { IfOk result (λ v. map F.Field.mean v.items ≡ map (carried F.Field.ops self.now.system.pairs.now (map F.Field.mean self.now.signature.now)) (range_with_len 0 (length self.now.system.pairs.now))) }
    {
        self.system
            .pairs
            .iter()
            .map(|&(i, _)| self.value(i))
            .collect(heap)
    }

    // The value of the second variable of each pair.
    pub(crate) fn right(&self, heap: Global) -> Result<Vec<F>, AllocError>
        ensures { IfOk result (λ v. map F.Field.mean v.items ≡ map (carried F.Field.ops self.now.system.pairs.now (map F.Field.mean self.now.signature.now)) (range_with_len (length self.now.system.pairs.now) (length self.now.system.pairs.now))) }
    {
        self.system
            .pairs
            .iter()
            .map(|&(_, j)| self.value(j))
            .collect(heap)
    }

    // The product of each pair.
    pub(crate) fn products(&self, heap: Global) -> Result<Vec<F>, AllocError>
        ensures { IfOk result (λ v. map F.Field.mean v.items ≡ map (product F.Field.ops self.now.system.pairs.now (map F.Field.mean self.now.signature.now)) (range_with_len 0 (length self.now.system.pairs.now))) }
    {
        self.system
            .pairs
            .iter()
            .map(|&pair| self.product(pair))
            .collect(heap)
    }

    // The product of the entries for the two variables of a pair.
    fn product(&self, pair: (usize, usize)) -> F
        requires left { pair.0 < self.now.system.variables }
        requires right { pair.1 < self.now.system.variables }
        ensures { F.Field.mean result ≡ F.Field.ops.mul (coeff F.Field.ops (map F.Field.mean self.now.signature.now) pair.0) (coeff F.Field.ops (map F.Field.mean self.now.signature.now) pair.1) }
    {
        self.value(pair.0).times(self.value(pair.1))
    }

    // The signature's entry for variable `i`.
    fn value(&self, i: usize) -> F
        requires { i < self.now.system.variables }
        ensures { F.Field.mean result ≡ coeff F.Field.ops (map F.Field.mean self.now.signature.now) i }
    {
        self.signature[i]
    }
}
