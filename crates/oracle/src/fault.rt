ghost use Rattle.std.specs.Prelude.{◌≡◌, Some};
ghost use Rattle.oracle.specs.Faults.{fault_text, told};

use std::error::Error;
use std::fmt;

// Why an oracle refuses a call.
#[derive(Clone, Copy, PartialEq, Eq, Debug)]
pub enum OracleFault {
    // 61: a list needs more cells than are free. A caller that fixes two lists at once tells their sum.
    NoRoom { needed: u64, free: u32 },
    // 62: sixteen polynomials stand.
    Full,
    // 63: a list has more than 16,384 coefficients.
    TooLong,
    // 64: there is no such polynomial.
    Absent,
}

impl OracleFault {
    // The number of the refusal.
    pub fn number(self) -> u32
        ensures { result ≡ (told self).0 }
    {
        match self {
            OracleFault::NoRoom { .. } => 61,
            OracleFault::Full => 62,
            OracleFault::TooLong => 63,
            OracleFault::Absent => 64,
        }
    }
}

impl fmt::Display for OracleFault {
    ghost output = { λ fault. Some (fault_text fault) };

    fn fmt<W: fmt::Write>(&self, f: &mut fmt::Formatter<W>) -> fmt::Result {
        match self {
            OracleFault::NoRoom { needed, free } => {
                write!(f, "{needed} cells are needed, and {free} are free")
            }
            OracleFault::Full => write!(f, "sixteen polynomials stand"),
            OracleFault::TooLong => write!(f, "more than 16384 coefficients"),
            OracleFault::Absent => write!(f, "there is no such polynomial"),
        }
    }
}

impl Error for OracleFault {}
