// The sparse oracle: one cell for each coefficient other than zero.
#![tactic(auto)]

mod loops;
mod store;
mod term;

pub use store::SparseOracle;
