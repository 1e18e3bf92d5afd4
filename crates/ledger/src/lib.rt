// A session's calls and refusals. Its ledger, and the law over all runs, are definitions: they stand in `specs/`.
#![tactic(auto)]

ghost use Rattle.ledger.specs.Law.{RunsKeepTheLaw};

use field::Field;

mod call;
mod fault;
mod transcript;

pub use call::Call;
pub use fault::SessionFault;
pub use transcript::Transcript;

// Does nothing; its contract is the law over all runs, for every oracle over the field.
pub fn law<F: Field>()
    ensures { RunsKeepTheLaw F.Field.ops }
{}
