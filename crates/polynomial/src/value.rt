ghost use Rattle.std.specs.Prelude.{◌≡◌, map};
ghost use Rattle.algebra.specs.Polynomials.{coeff, value};

use field::Field;

// The value of the polynomial `p` at `x`: the sum of `p[i]·x^i`.
pub fn value_at<F: Field>(p: &[F], x: F) -> F
    ensures means { F.Field.mean result ≡ value F.Field.ops (map F.Field.mean p.now) (F.Field.mean x) }
    ensures tidy { F.Field.reduced result }
{
    let mut sum = F::zero();
    for c in p.iter().rev() {
        sum = c.plus(x.times(sum));
    }
    sum
}

// The coefficient of `X^i` in `p`, zero past its end.
pub fn coefficient<F: Field>(p: &[F], i: usize) -> F
    ensures { F.Field.mean result ≡ coeff F.Field.ops (map F.Field.mean p.now) i }
{
    p.get(i).copied().unwrap_or(F::zero())
}
