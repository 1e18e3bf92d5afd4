#![tactic(auto)]

mod fault;
mod matrix;
mod position;
mod signed;
mod system;
mod vector;

pub use fault::Fault;
pub use system::System;
