ghost use Rattle.std.specs.Prelude.{◌≡◌, ◌+◌, ◌-◌, ◌*◌, ◌≤◌, map, length, Ok, Err};
ghost use Rattle.algebra.specs.Polynomials.{middle_list};
ghost use Rattle.polynomial.specs.Cells.{Cells, inner};
ghost use Rattle.polynomial.specs.Lengths.{MiddleFits};

use crate::WrongLength;
use field::Field;

// The middle product of `a` and `b`, of d + 1 entries each, into `out`, of 2d + 1: entry k is the sum of
// `a[i]·b[j]` over `d + i - j = k`. Writes nothing where the lengths do not fit.
pub fn middle_product<F: Field>(a: &[F], b: &[F], out: &mut [F]) -> Result<(), WrongLength>
    ensures { elim result [
      | Ok _ ↦ MiddleFits (length a.now) (length b.now) (length out.old)
          × Cells F.Field.mean F.Field.reduced out.new
          (middle_list F.Field.ops (length a.now - 1) (map F.Field.mean a.now) (map F.Field.mean b.now))
      | Err _ ↦ (MiddleFits (length a.now) (length b.now) (length out.old) → ⊥)
          × (out.new ≡ out.old)
    ] }
{
    let d = out.len() / 2;
    if a.len() != b.len() || out.len() % 2 == 0 || d + 1 != a.len() {
        return Err(WrongLength);
    }
    fill_middle(a, b, d, out);
    Ok(())
}

// Writes every entry of the middle product: entry k pairs what stands from `a[k - d]` and `b[d - k]` on.
fn fill_middle<F: Field>(a: &[F], b: &[F], d: usize, out: &mut [F])
    requires a_long { length a.now ≡ d + 1 }
    requires b_long { length b.now ≡ d + 1 }
    requires out_long { length out.old ≡ 2 * d + 1 }
    ensures { Cells F.Field.mean F.Field.reduced out.new
        (middle_list F.Field.ops d (map F.Field.mean a.now) (map F.Field.mean b.now)) }
{
    for (k, cell) in out.iter_mut().enumerate() {
        *cell = inner_product(&a[k.saturating_sub(d)..], &b[d.saturating_sub(k)..]);
    }
}

// The sum of `a[i]·b[i]`, up to the end of the shorter.
pub fn inner_product<F: Field>(a: &[F], b: &[F]) -> F
    ensures means { F.Field.mean result ≡ inner F.Field.ops (map F.Field.mean a.now) (map F.Field.mean b.now) }
    ensures tidy { F.Field.reduced result }
{
    let mut sum = F::zero();
    for (x, y) in a.iter().zip(b) {
        sum = sum.plus(x.times(*y));
    }
    sum
}
