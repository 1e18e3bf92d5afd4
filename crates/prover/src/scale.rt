ghost use Rattle.std.specs.Prelude.{◌≡◌, ℕ, map};
ghost use Rattle.field.specs.Field.{power};
ghost use Rattle.algebra.specs.Polynomials.{coeff};

use field::Field;

// Replaces p(X) by p(x·X): coefficient i becomes `x^i` times itself.
pub(crate) fn scale<F: Field>(x: F, p: &mut [F])
    ensures { (i : ℕ) → coeff F.Field.ops (map F.Field.mean p.new) i ≡ F.Field.ops.mul (power F.Field.ops (F.Field.mean x) i) (coeff F.Field.ops (map F.Field.mean p.old) i) }
{
    let mut factor = F::one();
    for c in p.iter_mut() {
        *c = factor.times(*c);
        factor = x.times(factor);
    }
}
