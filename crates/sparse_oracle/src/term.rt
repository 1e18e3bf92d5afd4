ghost use Rattle.std.specs.Prelude.{◌≡◌, ◌<◌};
ghost use Rattle.sparse_oracle.specs.Terms.{term_of};

use field::Field;

// One coefficient with its exponent.
#[derive(Clone, Copy)]
pub(crate) struct Term<F> {
    pub exponent: u16,
    pub coefficient: F,
}

impl<F: Field> Term<F> {
    pub(crate) fn new(degree: usize, coefficient: F) -> Term<F>
        requires { degree < 16384 }
        ensures { result ≡ term_of degree coefficient }
    {
        Term {
            exponent: degree as u16,
            coefficient,
        }
    }

    // The exponent as a number to count with.
    pub(crate) fn degree(self) -> usize
        ensures { result ≡ self.exponent }
    {
        usize::from(self.exponent)
    }
}
