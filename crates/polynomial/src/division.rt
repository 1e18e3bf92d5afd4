ghost use Rattle.std.specs.Prelude.{◌≡◌, ℕ, ◌+◌, ◌<◌, map, length, Ok, Err, Decides};
ghost use Rattle.std.specs.List.{AllByRecursion};
ghost use Rattle.algebra.specs.Polynomials.{coeff};
ghost use Rattle.polynomial.specs.Cells.{Divided, carried};
ghost use Rattle.polynomial.specs.Lengths.{RowsFit};
ghost use Rattle.polynomial.specs.Steps.{Stepped};

use crate::WrongLength;
use crate::value::coefficient;
use field::Field;

// Divides `p`, rows of N = `remainder.len()` coefficients, by `X^N - alpha`, row by row from the last:
// `p = quotient·(X^N - alpha) + remainder`. Writes nothing where the lengths do not fit.
pub fn divide<F: Field>(
    p: &[F],
    alpha: F,
    quotient: &mut [F],
    remainder: &mut [F],
) -> Result<(), WrongLength>
    ensures { elim result [
      | Ok _ ↦ RowsFit (length p.now) (length quotient.old) (length remainder.old)
          × Divided F.Field.ops F.Field.mean F.Field.reduced p.now (F.Field.mean alpha) quotient.new remainder.new
      | Err _ ↦ (RowsFit (length p.now) (length quotient.old) (length remainder.old) → ⊥)
          × (quotient.new ≡ quotient.old) × (remainder.new ≡ remainder.old)
    ] }
{
    write_quotient(p, remainder.len(), alpha, quotient)?;
    fill_remainder(p, alpha, quotient, remainder);
    Ok(())
}

// Writes the quotient alone, of the division by `X^n - alpha`. Writes nothing where the lengths do not fit.
pub fn write_quotient<F: Field>(
    p: &[F],
    n: usize,
    alpha: F,
    quotient: &mut [F],
) -> Result<(), WrongLength>
    ensures { elim result [
      | Ok _ ↦ RowsFit (length p.now) (length quotient.old) n
          × Stepped F.Field.ops F.Field.mean F.Field.reduced p.now (F.Field.mean alpha) n quotient.new
      | Err _ ↦ (RowsFit (length p.now) (length quotient.old) n → ⊥)
          × (quotient.new ≡ quotient.old)
    ] }
{
    if !rows_fit(p.len(), quotient.len(), n) {
        return Err(WrongLength);
    }
    fill_quotient(p, n, alpha, quotient);
    Ok(())
}

// Whether a dividend is rows as long as the remainder, one more than the quotient has.
fn rows_fit(dividend: usize, quotient: usize, remainder: usize) -> bool
    ensures { Decides result (RowsFit dividend quotient remainder) }
{
    0 < remainder
        && remainder <= dividend
        && dividend - remainder == quotient
        && quotient % remainder == 0
}

// Writes the quotient from its last coefficient down: coefficient k is `carried` at k + n.
fn fill_quotient<F: Field>(p: &[F], n: usize, alpha: F, quotient: &mut [F])
    requires row_less { length quotient.old + n ≡ length p.now }
    requires some { 0 < n }
    ensures steps { (k : ℕ) → coeff F.Field.ops (map F.Field.mean quotient.new) k
        ≡ carried F.Field.ops (map F.Field.mean p.now) (F.Field.mean alpha) (map F.Field.mean quotient.new) (k + n) }
    ensures tidy { AllByRecursion F.Field.reduced quotient.new }
{
    for k in (0..quotient.len()).rev() {
        quotient[k] = carry(p, alpha, quotient, k + n);
    }
}

// Writes the remainder: coefficient k is `carried` at k.
fn fill_remainder<F: Field>(p: &[F], alpha: F, quotient: &[F], remainder: &mut [F])
    ensures rests { (k : ℕ) → k < length remainder.new → coeff F.Field.ops (map F.Field.mean remainder.new) k
        ≡ carried F.Field.ops (map F.Field.mean p.now) (F.Field.mean alpha) (map F.Field.mean quotient.now) k }
    ensures tidy { AllByRecursion F.Field.reduced remainder.new }
{
    for (k, cell) in remainder.iter_mut().enumerate() {
        *cell = carry(p, alpha, quotient, k);
    }
}

// The dividend's coefficient at k and `alpha` times the quotient's: for k below n, entry k of the remainder.
pub fn carry<F: Field>(p: &[F], alpha: F, quotient: &[F], k: usize) -> F
    ensures means { F.Field.mean result ≡ carried F.Field.ops (map F.Field.mean p.now) (F.Field.mean alpha) (map F.Field.mean quotient.now) k }
    ensures tidy { F.Field.reduced result }
{
    coefficient(p, k).plus(alpha.times(coefficient(quotient, k)))
}
