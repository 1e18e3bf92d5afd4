ghost use Rattle.std.specs.Prelude.{◌≡◌};
ghost use Rattle.equations.specs.Places.{place_of};

// The polynomials of a transcript.
#[derive(Clone, Copy, PartialEq, Eq, Debug)]
pub(crate) enum Polynomial {
    Matrix,
    Vector,
    Left,
    Right,
    Out,
    Remainder,
    Quotient,
    H1,
    H2,
}

impl Polynomial {
    // Its number among those that stand, counted from 0.
    pub(crate) fn place(self) -> usize
        ensures { result ≡ place_of self }
    {
        match self {
            Polynomial::Matrix => 0,
            Polynomial::Vector => 1,
            Polynomial::Left => 2,
            Polynomial::Right => 3,
            Polynomial::Out => 4,
            Polynomial::Remainder => 5,
            Polynomial::Quotient => 6,
            Polynomial::H1 => 7,
            Polynomial::H2 => 8,
        }
    }
}
