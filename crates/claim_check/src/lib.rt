// Checks the claim that a text says.
#![tactic(auto)]

ghost use Rattle.claim_file.specs.Answer.{meaning};
ghost use Rattle.claim_check.specs.Outcome.{Audits, Answers};

mod fault;
mod values;
mod words;

use claim_file::{ClaimFile, FieldName};
pub use fault::CheckFault;
use field::Encoded;
use gf256::Gf256;
use mersenne31::Mersenne31;
use prover::Finding;
use std::alloc::Global;
pub use values::{elements, values_of};
pub use words::verdict;

// Reads the claim that the text says, and audits it over the field that it names.
pub fn check_text(heap: Global, text: &[u8]) -> Result<Finding, CheckFault>
    ensures { Answers text.now result }
{
    let claim = claim_file::read(heap, text)?;
    match claim.field {
        FieldName::Mersenne31 => audit_words::<Mersenne31>(heap, &claim),
        FieldName::Gf256 => audit_words::<Gf256>(heap, &claim),
    }
}

// Audits the claim whose entries the words stand for in the field `F`.
fn audit_words<F: Encoded>(heap: Global, claim: &ClaimFile) -> Result<Finding, CheckFault>
    ensures { Audits F.Field.ops (λ w. F.Field.mean (F.Encoded.element w)) (meaning claim.now) result }
{
    let values = values_of::<F>(heap, claim)?;
    let found = values.lent().audit()?;
    Ok(found)
}
