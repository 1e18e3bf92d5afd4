ghost use Rattle.std.specs.Prelude.{◌≡◌, map, IfOk};
ghost use Rattle.claim_file.specs.Answer.{meaning};
ghost use Rattle.claim_check.specs.Values.{ValuesOf};

use claim_file::ClaimFile;
use field::Encoded;
use prover::OwnedClaim;
use std::alloc::{AllocError, Global};

// The claim of a file as values of the field `F`.
pub fn values_of<F: Encoded>(heap: Global, claim: &ClaimFile) -> Result<OwnedClaim<F>, AllocError>
    ensures { IfOk result (ValuesOf F.Encoded.element (meaning claim.now)) }
{
    let matrix = elements(heap, &claim.matrix)?;
    let vector = elements(heap, &claim.vector)?;
    let left = elements(heap, &claim.left)?;
    let right = elements(heap, &claim.right)?;
    let out = elements(heap, &claim.out)?;
    Ok(OwnedClaim {
        m: claim.m as usize,
        n: claim.n as usize,
        matrix,
        vector,
        left,
        right,
        out,
    })
}

// The values that words stand for.
pub fn elements<F: Encoded>(heap: Global, words: &[u32]) -> Result<Vec<F>, AllocError>
    ensures { IfOk result (λ v. v.items ≡ map F.Encoded.element words.now) }
{
    words.iter().map(|word| F::from_word(*word)).collect(heap)
}
