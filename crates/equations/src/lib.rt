// The verifier's three equations, tested by thirteen values that an oracle answers.
#![tactic(auto)]

ghost use Rattle.std.specs.Prelude.{◌≡◌, ◌+◌, ◌*◌, [], slice_index_or};
ghost use Rattle.field.specs.Field.{power as power_of};
ghost use Rattle.algebra.specs.Sums.{sub};
ghost use Rattle.algebra.specs.Polynomials.{value};
ghost use Rattle.equations.specs.Tests.{wires_from, settled as settled_test, accepts};
ghost use Rattle.equations.specs.Places.{place_of};

mod polynomial_name;

use field::Field;
use inner_product::{InnerProductClaim, Values};
use oracle::Oracle;
use polynomial::power;
use polynomial_name::Polynomial;

// Whether E1, E2 and E3 hold for the polynomials 0 to 8 of the oracle: M, x, wl, wr, wo, r, q, h1, h2. All
// thirteen values are asked for, also where E1 fails. Where z is zero, or 6n above the span, the answer is no.
pub fn hold<O: Oracle>(oracle: &O, n: u32, alpha: O::Elem, beta: O::Elem, z: O::Elem) -> bool
    ensures { result ≡ accepts O.Elem.Field.ops n (O.Oracle.stand oracle.now O.Elem.Field).lists (O.Elem.Field.mean alpha) (O.Elem.Field.mean beta) (O.Elem.Field.mean z) }
{
    let Some(y) = z.inverse() else {
        return false;
    };
    let next = O::Elem::gamma().times(z);
    let matrix = value_of(oracle, Polynomial::Matrix, z);
    let quotient = value_of(oracle, Polynomial::Quotient, z);
    let remainder = value_of(oracle, Polynomial::Remainder, z);
    let h1 = value_of(oracle, Polynomial::H1, z);
    let h1_next = value_of(oracle, Polynomial::H1, next);
    let left = value_of(oracle, Polynomial::Left, y);
    let right = value_of(oracle, Polynomial::Right, y);
    let out = value_of(oracle, Polynomial::Out, y);
    let vector = value_of(oracle, Polynomial::Vector, alpha);
    let h2 = value_of(oracle, Polynomial::H2, z);
    let h2_next = value_of(oracle, Polynomial::H2, next);
    let scaled = value_of(oracle, Polynomial::Left, beta.times(z));
    let gates = value_of(oracle, Polynomial::Out, beta);
    let rows = Values {
        ya: remainder,
        yb: wires_at(n, y, left, right, out),
        yh: h1,
        yh2: h1_next,
    };
    let products = Values {
        ya: scaled,
        yb: right,
        yh: h2,
        yh2: h2_next,
    };
    let d = n as usize;
    let first = divides(n, alpha, z, matrix, quotient, remainder);
    let second = settled(3 * d, vector, z, rows);
    let third = settled(d.saturating_sub(1), gates, z, products);
    first && (second && third)
}

// The value of a polynomial at x; one that does not stand is the empty list.
fn value_of<O: Oracle>(oracle: &O, which: Polynomial, x: O::Elem) -> O::Elem
    ensures { O.Elem.Field.mean result ≡ value O.Elem.Field.ops (slice_index_or (O.Oracle.stand oracle.now O.Elem.Field).lists (place_of which) []) (O.Elem.Field.mean x) }
{
    oracle.ask(which.place(), x).unwrap_or(O::Elem::zero())
}

// Whether `matrix = quotient·(z^N - alpha) + remainder`, where N = 3n + 1.
fn divides<F: Field>(n: u32, alpha: F, z: F, matrix: F, quotient: F, remainder: F) -> bool
    ensures { result ≡ F.Field.ops.same (F.Field.mean matrix) (F.Field.ops.add (F.Field.ops.mul (F.Field.mean quotient) (sub F.Field.ops (power_of F.Field.ops (F.Field.mean z) (3 * n + 1)) (F.Field.mean alpha))) (F.Field.mean remainder)) }
{
    let divisor = power(z, 3 * n as usize + 1).plus(alpha.neg());
    matrix.same(quotient.times(divisor).plus(remainder))
}

// `1 + y·left + y^(n+1)·right + y^(2n+1)·out`.
fn wires_at<F: Field>(n: u32, y: F, left: F, right: F, out: F) -> F
    ensures { F.Field.mean result ≡ wires_from F.Field.ops n (F.Field.mean y) (F.Field.mean left) (F.Field.mean right) (F.Field.mean out) }
{
    let first = F::one().plus(y.times(left));
    let second = power(y, n as usize + 1).times(right);
    let third = power(y, 2 * n as usize + 1).times(out);
    first.plus(second).plus(third)
}

// An inner-product claim stated and settled; one that cannot be stated does not hold.
fn settled<F: Field>(d: usize, c: F, z: F, at: Values<F>) -> bool
    ensures { result ≡ settled_test F.Field.ops d (F.Field.mean c) (F.Field.mean z) (F.Field.mean at.ya) (F.Field.mean at.yb) (F.Field.mean at.yh) (F.Field.mean at.yh2) }
{
    InnerProductClaim::state(d, c, z).is_ok_and(|claim| claim.settle(at))
}
