// The theorems of acceptance, at every field and at each of the two.
#![tactic(auto)]

ghost use Rattle.theorems.specs.Acceptance.{Acceptance};
ghost use Rattle.mersenne31.specs.Mersenne31.{modulo};
ghost use Rattle.gf256.specs.Gf256.{bytes};

use algebra::{complete, ends, few_alpha, few_beta, few_z, root_bound, sound};
use field::Field;
use gf256::Gf256;
use mersenne31::Mersenne31;

// The theorems over any field.
pub fn acceptance<F: Field>()
    ensures { Acceptance F.Field.ops }
{
    root_bound::<F>();
    sound::<F>();
    few_alpha::<F>();
    few_beta::<F>();
    few_z::<F>();
    ends::<F>();
    complete::<F>();
}

// The theorems over the numbers modulo 2^31 - 1.
pub fn acceptance_at_mersenne31()
    ensures { Acceptance modulo }
{
    acceptance::<Mersenne31>();
}

// The theorems over the field of 256 elements.
pub fn acceptance_at_gf256()
    ensures { Acceptance bytes }
{
    acceptance::<Gf256>();
}
