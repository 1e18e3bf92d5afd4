ghost use Rattle.std.specs.Prelude.{◌≡◌, ◌-◌, ◌≤◌, ◌++◌, map, length, replicate, IfOk};

use field::Field;
use std::alloc::{AllocError, Global};

// The digest, and zeros up to `rows`.
pub(crate) fn fill_vector<F: Field>(
    heap: Global,
    digest: &[F],
    rows: usize,
) -> Result<Vec<F>, AllocError>
    requires { length digest.now ≤ rows }
    ensures { IfOk result (λ v. map F.Field.mean v.items ≡ map F.Field.mean digest.now ++ replicate (rows - length digest.now) F.Field.ops.nil) }
{
    let mut vector = Vec::from_slice(heap, digest)?;
    vector.resize(rows, F::zero())?;
    Ok(vector)
}
