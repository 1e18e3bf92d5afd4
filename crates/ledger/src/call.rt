use prover::Statement;

// One call of a session.
#[derive(Drop)]
pub enum Call<'a, F> {
    // The statement of a claim.
    Open(Statement<'a, F>),
    // The next polynomial of the prover.
    Put(&'a [F]),
    // The next challenge of the verifier.
    Draw(F),
    // The verifier's test.
    Judge,
}
