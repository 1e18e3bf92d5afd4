ghost use Rattle.std.specs.Prelude.{◌≡◌, Some};
ghost use Rattle.std.specs.Option.{option_to_list};
ghost use Rattle.quadratic.specs.Refusals.{told, fault_text};
ghost use Rattle.quadratic.specs.declared.fault.Fault.TheVariants.{NoMemory};

use std::alloc::{AllocError, AllocFailed};
use std::error::Error;
use std::fmt;

// Why a signature is not encoded.
#[derive(Clone, Copy, PartialEq, Eq, Debug)]
pub enum Fault {
    // 81: the signature has not one entry for each variable.
    SignatureLength,
    // 82: there are not 1 + v + n coefficients for each entry of the digest.
    CoefficientsLength,
    // 83: the first pair that names a variable which the system has not.
    StrayPair { pair: usize },
    // 84: the first variable that is in no pair.
    UnusedVariable { variable: usize },
    // 85: want of memory.
    NoMemory,
}

impl Fault {
    // The number of the fault.
    pub fn number(self) -> u32
        ensures { result ≡ (told self).0 }
    {
        match self {
            Fault::SignatureLength => 81,
            Fault::CoefficientsLength => 82,
            Fault::StrayPair { .. } => 83,
            Fault::UnusedVariable { .. } => 84,
            Fault::NoMemory => 85,
        }
    }

    // The pair or the variable that the fault names.
    pub fn place(self) -> Option<usize>
        ensures { option_to_list result ≡ (told self).1 }
    {
        match self {
            Fault::StrayPair { pair } => Some(pair),
            Fault::UnusedVariable { variable } => Some(variable),
            Fault::SignatureLength | Fault::CoefficientsLength | Fault::NoMemory => None,
        }
    }
}

impl fmt::Display for Fault {
    ghost output = { λ fault. Some (fault_text fault) };

    fn fmt<W: fmt::Write>(&self, f: &mut fmt::Formatter<W>) -> fmt::Result {
        match self {
            Fault::SignatureLength => write!(f, "the signature has not an entry for each variable"),
            Fault::CoefficientsLength => write!(
                f,
                "the coefficients are not a row for each equation"
            ),
            Fault::StrayPair { pair } => write!(f, "pair {pair} names an unknown variable"),
            Fault::UnusedVariable { variable } => write!(f, "variable {variable} is in no pair"),
            Fault::NoMemory => write!(f, "no memory is left, or a size is too large"),
        }
    }
}

impl Error for Fault {}

impl From<AllocError> for Fault {
    ghost from_gives = { λ _ r. r ≡ NoMemory };

    fn from(_e: AllocError) -> Fault {
        Fault::NoMemory
    }
}

impl<T: Drop> From<AllocFailed<T>> for Fault {
    ghost from_gives = { λ _ r. r ≡ NoMemory };

    fn from(_e: AllocFailed<T>) -> Fault {
        Fault::NoMemory
    }
}
