#![tactic(auto)]

mod claim;
mod full;
mod layout;
mod owned;
mod refusal;
mod relation;
mod scale;

pub use claim::{Challenges, Claim, Statement, Wires};
pub use layout::{Layout, Reply};
pub use owned::OwnedClaim;
pub use refusal::{Refusal, in_range};
pub use relation::Finding;
