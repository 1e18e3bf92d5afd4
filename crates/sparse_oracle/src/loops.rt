ghost use Rattle.std.specs.Prelude.{◌≡◌, ◌≤◌, true, List, [], ◌∷◌, ◌++◌, map, length};
ghost use Rattle.algebra.specs.Polynomials.{value};
ghost use Rattle.oracle.specs.Store.{fits, lists_of, room_of};
ghost use Rattle.oracle.specs.Tables.{kept};
ghost use Rattle.sparse_oracle.specs.Terms.{Spells, coefficients_of, nonzero, terms_of};

use crate::term::Term;
use field::Field;
use oracle::Store;
use polynomial::power;

// How many values of a list are not zero.
pub(crate) fn count_values<F: Field>(p: &[F]) -> usize
    ensures means { result ≡ nonzero F.Field.ops (map F.Field.mean p.now) }
    ensures within { result ≤ length (map F.Field.mean p.now) }
{
    let mut count = 0;
    for x in p {
        if !x.is_zero() {
            count += 1;
        }
    }
    count
}

// How many terms have a coefficient other than zero.
pub(crate) fn count_terms<F: Field>(terms: &[Term<F>]) -> usize
    ensures means { result ≡ nonzero F.Field.ops (coefficients_of F.Field.mean terms.now) }
    ensures within { result ≤ length terms.now }
{
    let mut count = 0;
    for term in terms {
        if !term.coefficient.is_zero() {
            count += 1;
        }
    }
    count
}

// Puts up the terms of `p`, one for each coefficient other than zero.
pub(crate) fn write_terms<F: Field>(store: &mut Store<Term<F>>, p: &[F])
    requires short { length p.now ≤ 16384 }
    requires room { fits (lists_of store.old) (room_of store.old) (nonzero F.Field.ops (map F.Field.mean p.now)) ≡ true }
    ensures lists { lists_of store.new ≡ lists_of store.old ++ kept (length p.now) (terms_of F.Field.ops F.Field.mean 0 p.now) ∷ [] }
    ensures same_room { room_of store.new ≡ room_of store.old }
{
    let no_terms = [];
    let begun = store.append(p.len(), &no_terms);
    prove!(begun);
    for (i, &coefficient) in p.iter().enumerate() {
        if !coefficient.is_zero() {
            let pushed = store.push(Term::new(i, coefficient));
            prove!(pushed);
        }
    }
}

// The value at `x` of the polynomial that the terms spell. The power of `x` that one term has is raised to that of the
// next by the gap between their exponents.
pub(crate) fn value_of<F: Field>(terms: &[Term<F>], x: F) -> F
    ensures means { (p : List F.Field.K) → Spells F.Field.ops F.Field.mean terms.now p → F.Field.mean result ≡ value F.Field.ops p (F.Field.mean x) }
    ensures tidy { F.Field.reduced result }
{
    let mut sum = F::zero();
    let mut reached = 0usize;
    let mut raised = F::one();
    for term in terms {
        let degree = term.degree();
        raised = raised.times(power(x, degree.saturating_sub(reached)));
        reached = degree;
        sum = sum.plus(term.coefficient.times(raised));
    }
    sum
}
