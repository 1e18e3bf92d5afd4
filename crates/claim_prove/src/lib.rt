// Proves the claim that a file says.
#![tactic(auto)]

ghost use Rattle.std.specs.Prelude.{◌≡◌, map, IfOk, vec_len};
ghost use Rattle.prover.specs.Claims.{claim_of};
ghost use Rattle.claim_file.specs.Answer.{meaning};
ghost use Rattle.claim_check.specs.Values.{ValuesOf};
ghost use Rattle.claim_prove.specs.Proofs.{ProvedBy, ProvesWords, ProvesIn, Spells, Written, without_vector};

use claim_check::{CheckFault, elements};
use claim_file::{ClaimFile, FieldName};
use field::{Encoded, Field};
use gf256::Gf256;
use mersenne31::Mersenne31;
use prover::{Challenges, Claim, Layout, OwnedClaim, Reply};
use std::alloc::{AllocError, Global};

// The polynomials of a proof, as words.
#[derive(Drop)]
pub struct Proof {
    pub r: Vec<u32>,
    pub q: Vec<u32>,
    pub h1: Vec<u32>,
    pub h2: Vec<u32>,
}

// An honest reply to the claim that a file says, over the field that it names.
pub fn prove_claim(
    heap: Global,
    claim: &ClaimFile,
    at: Challenges<u32>,
) -> Result<Proof, CheckFault>
    ensures { ProvesIn claim.now.«field» (meaning claim.now) at result }
{
    match claim.field {
        FieldName::Mersenne31 => prove_words::<Mersenne31>(heap, claim, at),
        FieldName::Gf256 => prove_words::<Gf256>(heap, claim, at),
    }
}

// The same over the field `F`.
fn prove_words<F: Encoded>(
    heap: Global,
    claim: &ClaimFile,
    at: Challenges<u32>,
) -> Result<Proof, CheckFault>
    ensures { ProvesWords F.Field.ops (λ w. F.Field.mean (F.Encoded.element w)) (Written F.Encoded.spelling) (meaning claim.now) at result }
{
    let values = all_but_vector::<F>(heap, claim)?;
    let at = Challenges {
        alpha: F::from_word(at.alpha),
        beta: F::from_word(at.beta),
        free1: F::from_word(at.free1),
        free2: F::from_word(at.free2),
    };
    prove_values(heap, values.lent(), at)
}

// The claim of a file as values, but for its vector, which a prover does not read and which may have any length.
fn all_but_vector<F: Encoded>(heap: Global, claim: &ClaimFile) -> Result<OwnedClaim<F>, AllocError>
    ensures { IfOk result (ValuesOf F.Encoded.element (without_vector (meaning claim.now))) }
{
    let matrix = elements(heap, &claim.matrix)?;
    let left = elements(heap, &claim.left)?;
    let right = elements(heap, &claim.right)?;
    let out = elements(heap, &claim.out)?;
    Ok(OwnedClaim {
        m: claim.m as usize,
        n: claim.n as usize,
        matrix,
        vector: Vec::new(heap),
        left,
        right,
        out,
    })
}

// The same for the claim of lent values.
fn prove_values<F: Encoded>(
    heap: Global,
    claim: Claim<'_, F>,
    at: Challenges<F>,
) -> Result<Proof, CheckFault>
    ensures { ProvedBy F.Field.ops (λ w. F.Field.mean (F.Encoded.element w)) (Written F.Encoded.spelling) (claim_of F.Field.mean claim.entry)
        (F.Field.mean at.alpha) (F.Field.mean at.beta) (F.Field.mean at.free1) (F.Field.mean at.free2) result }
{
    let layout = Layout::of::<F>(claim.statement.m, claim.statement.n)?;
    let mut cells = vec![in heap; F::zero(); layout.h2_end]?;
    claim.prove(at, &mut cells)?;
    // The layout is that of the cells.
    let reply = layout.split(&cells).unwrap();
    let proof = spelled(heap, reply)?;
    Ok(proof)
}

// The four polynomials of a reply, as words.
fn spelled<F: Encoded>(heap: Global, reply: Reply<'_, F>) -> Result<Proof, AllocError>
    ensures { IfOk result (λ p. Spells F.Encoded.spelling reply.entry p) }
{
    Ok(Proof {
        r: words(heap, reply.r)?,
        q: words(heap, reply.q)?,
        h1: words(heap, reply.h1)?,
        h2: words(heap, reply.h2)?,
    })
}

// The words of values.
fn words<F: Encoded>(heap: Global, values: &[F]) -> Result<Vec<u32>, AllocError>
    ensures { IfOk result (λ v. v.items ≡ map F.Encoded.spelling values.now) }
{
    values.iter().map(|x| x.to_word()).collect(heap)
}
