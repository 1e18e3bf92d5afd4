ghost use Rattle.std.specs.Prelude.{◌≡◌, IfOk};
ghost use Rattle.ledger.specs.Transcripts.{calls_of};

use crate::Call;
use field::Field;
use prover::{Claim, Reply};
use std::alloc::{AllocError, Global};

// What is written down of one claim and its proof: the claim, the prover's reply, and the verifier's challenges.
#[derive(Clone, Copy)]
pub struct Transcript<'a, F> {
    pub claim: Claim<'a, F>,
    pub reply: Reply<'a, F>,
    pub alpha: F,
    pub beta: F,
    pub z: F,
}

impl<'a, F: Field> Transcript<'a, F> {
    // The calls that play it in a session, in their order.
    pub fn calls(self, heap: Global) -> Result<Vec<Call<'a, F>>, AllocError>
        ensures { IfOk result (λ calls. calls.items ≡ calls_of self.entry) }
    {
        let Transcript {
            claim: Claim { statement, wires },
            reply,
            ..
        } = self;
        let mut calls = Vec::with_capacity(heap, 12)?;
        calls.push(Call::Open(statement))?;
        calls.push(Call::Put(wires.left))?;
        calls.push(Call::Put(wires.right))?;
        calls.push(Call::Put(wires.out))?;
        calls.push(Call::Draw(self.alpha))?;
        calls.push(Call::Draw(self.beta))?;
        calls.push(Call::Put(reply.r))?;
        calls.push(Call::Put(reply.q))?;
        calls.push(Call::Put(reply.h1))?;
        calls.push(Call::Put(reply.h2))?;
        calls.push(Call::Draw(self.z))?;
        calls.push(Call::Judge)?;
        Ok(calls)
    }
}
