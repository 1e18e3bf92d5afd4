ghost use Rattle.std.specs.Prelude.{◌≡◌, ◌+◌, ◌*◌, ◌≤◌, map, length, Ok, Err};
ghost use Rattle.field.specs.Field.{power as power_of};
ghost use Rattle.algebra.specs.Sums.{sub};
ghost use Rattle.polynomial.specs.Cells.{Cells};
ghost use Rattle.polynomial.specs.Twist.{TwistFits, untwisted, solved};

use crate::WrongLength;
use field::Field;

// Solves `gamma^d·h(X) - h(gamma·X) = c(X)` in place: `cells` holds the 2d + 1 entries of `c`, and entry k becomes
// `c[k]/(gamma^d - gamma^k)`, but entry d, which the equation leaves open, `free`. Writes nothing where the length
// does not fit, or 2d is above the field's span.
pub fn solve_twist<F: Field>(d: usize, free: F, cells: &mut [F]) -> Result<(), WrongLength>
    ensures { elim result [
      | Ok _ ↦ TwistFits F.Field.ops.span d (length cells.old)
          × Cells F.Field.mean F.Field.reduced cells.new (solved F.Field.ops d (F.Field.mean free) (map F.Field.mean cells.old))
      | Err _ ↦ (TwistFits F.Field.ops.span d (length cells.old) → ⊥)
          × (cells.new ≡ cells.old)
    ] }
{
    if cells.len() % 2 == 0 || cells.len() / 2 != d || 2 * d > F::SPAN as usize {
        return Err(WrongLength);
    }
    fill_solved(d, free, cells);
    Ok(())
}

// Replaces every entry.
fn fill_solved<F: Field>(d: usize, free: F, cells: &mut [F])
    requires { TwistFits F.Field.ops.span d (length cells.old) }
    ensures { Cells F.Field.mean F.Field.reduced cells.new (solved F.Field.ops d (F.Field.mean free) (map F.Field.mean cells.old)) }
{
    for (k, cell) in cells.iter_mut().enumerate() {
        *cell = untwist(d, free, *cell, k);
    }
}

// `y/(gamma^d - gamma^k)`, or `free` at d.
fn untwist<F: Field>(d: usize, free: F, y: F, k: usize) -> F
    requires within { k ≤ 2 * d }
    requires near { 2 * d ≤ F.Field.ops.span }
    ensures means { F.Field.mean result ≡ untwisted F.Field.ops d (F.Field.mean free) (F.Field.mean y) k }
    ensures tidy { F.Field.reduced result }
{
    if k == d {
        return free.plus(F::zero());
    }
    match gap::<F>(d, k).inverse() {
        Some(inverse) => y.times(inverse),
        // The powers differ, so the gap is not zero.
        None => unreachable!(),
    }
}

// `gamma^d - gamma^k`.
fn gap<F: Field>(d: usize, k: usize) -> F
    ensures { F.Field.mean result ≡ sub F.Field.ops (power_of F.Field.ops F.Field.ops.gamma d) (power_of F.Field.ops F.Field.ops.gamma k) }
{
    power(F::gamma(), d).plus(power(F::gamma(), k).neg())
}

// `x` to the power `k`.
pub fn power<F: Field>(x: F, k: usize) -> F
    ensures means { F.Field.mean result ≡ power_of F.Field.ops (F.Field.mean x) k }
    ensures tidy { F.Field.reduced result }
{
    let mut product = F::one();
    for _ in 0..k {
        product = x.times(product);
    }
    product
}
