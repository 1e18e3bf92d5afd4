// The verifier's session over a polynomial oracle: its turns, calls and refusals, and whole runs.
#![tactic(auto)]

mod runs;
mod state;
mod verdicts;

pub use runs::run;
pub use state::Session;
pub use verdicts::{Report, Verdict};
