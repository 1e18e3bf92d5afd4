#![tactic(auto)]

// Examples: whole runs of a session in both fields on both makes of oracle, every refusal, and the edges of the sizes.
#[cfg(test)]
mod claims;
#[cfg(test)]
mod refusals;
#[cfg(test)]
mod runs;
#[cfg(test)]
mod sizes;
