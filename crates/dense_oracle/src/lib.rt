// The dense oracle: one cell for each coefficient.
#![tactic(auto)]

mod store;

pub use store::DenseOracle;
