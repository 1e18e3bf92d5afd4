#![tactic(auto)]

// Examples: the direct check at the edges of its sizes, words of a field, polynomials, systems, and texts.
#[cfg(test)]
mod claims;
#[cfg(test)]
mod edges;
#[cfg(test)]
mod polynomials;
#[cfg(test)]
mod proofs;
#[cfg(test)]
mod replies;
#[cfg(test)]
mod systems;
#[cfg(test)]
mod texts;
#[cfg(test)]
mod words;
