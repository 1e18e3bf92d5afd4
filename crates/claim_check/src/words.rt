// The verdict in words.
ghost use Rattle.std.specs.Prelude.{◌≡◌, IfOk, string_bytes};
ghost use Rattle.claim_check.specs.Words.{verdict_text};

use crate::CheckFault;
use prover::Finding;
use std::alloc::{AllocError, Global};

// The answer to whether a claim is true: `true`, `false`, or the fault for which that is not known.
pub fn verdict(heap: Global, outcome: Result<Finding, CheckFault>) -> Result<String, AllocError>
    ensures { IfOk result (λ s. string_bytes s ≡ verdict_text outcome) }
{
    match outcome {
        Ok(Finding::AllHold) => format!(in heap; "true"),
        Ok(Finding::RowFails(_) | Finding::GateFails(_)) => format!(in heap; "false"),
        Err(fault) => format!(in heap; "{fault}"),
    }
}
