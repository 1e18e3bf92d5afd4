#![tactic(auto)]

mod division;
mod middle;
mod twist;
mod value;

pub use division::{carry, divide, write_quotient};
pub use middle::{inner_product, middle_product};
pub use twist::{power, solve_twist};
pub use value::{coefficient, value_at};

// The lengths of the lent parts do not fit one another.
#[derive(Clone, Copy, PartialEq, Eq, Debug)]
pub struct WrongLength;
