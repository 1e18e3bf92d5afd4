ghost use Rattle.std.specs.Prelude.{◌≡◌, Some};
ghost use Rattle.claim_file.specs.declared.ReadFault.TheVariants.{NoMemory};
ghost use Rattle.claim_check.specs.declared.fault.CheckFault.TheVariants.{Unreadable as unreadable, Refused as refused};
ghost use Rattle.claim_check.specs.Outcome.{told};
ghost use Rattle.claim_check.specs.Words.{fault_words, fault_text};

use claim_file::ReadFault;
use prover::Refusal;
use std::alloc::AllocError;
use std::error::Error;
use std::fmt;

// Why a text is not checked: it says no claim, or one that is refused.
#[derive(Clone, Copy, PartialEq, Eq, Debug)]
pub enum CheckFault {
    Unreadable(ReadFault),
    Refused(Refusal),
}

impl CheckFault {
    // The number of the fault: that of what it holds.
    pub fn number(self) -> u32
        ensures { result ≡ (told self).0 }
    {
        match self {
            CheckFault::Unreadable(e) => e.number(),
            CheckFault::Refused(e) => e.number(),
        }
    }
}

// A fault with its number, and its line where it has one.
impl fmt::Display for CheckFault {
    ghost output = { λ e. Some (fault_text (told e) (fault_words e)) };

    fn fmt<W: fmt::Write>(&self, f: &mut fmt::Formatter<W>) -> fmt::Result {
        match self {
            CheckFault::Refused(e) => write!(f, "refused {}: {e}", e.number()),
            CheckFault::Unreadable(e) => match e.line() {
                Some(line) => write!(f, "refused {}: line {line}: {e}", e.number()),
                None => write!(f, "refused {}: {e}", e.number()),
            },
        }
    }
}

impl Error for CheckFault {}

impl From<ReadFault> for CheckFault {
    ghost from_gives = { λ e r. r ≡ unreadable e };

    fn from(e: ReadFault) -> CheckFault {
        CheckFault::Unreadable(e)
    }
}

impl From<Refusal> for CheckFault {
    ghost from_gives = { λ e r. r ≡ refused e };

    fn from(e: Refusal) -> CheckFault {
        CheckFault::Refused(e)
    }
}

impl From<AllocError> for CheckFault {
    ghost from_gives = { λ _ r. r ≡ unreadable NoMemory };

    fn from(_e: AllocError) -> CheckFault {
        CheckFault::Unreadable(ReadFault::NoMemory)
    }
}
