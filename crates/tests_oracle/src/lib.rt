#![tactic(auto)]

// Examples: both makes of oracle at the edges of their limits, and the values that they answer.
#[cfg(test)]
mod asks;
#[cfg(test)]
mod limits;
#[cfg(test)]
mod values;
