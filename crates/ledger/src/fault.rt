ghost use Rattle.std.specs.Prelude.{◌≡◌, Some};
ghost use Rattle.ledger.specs.Faults.{told, words};
ghost use Rattle.ledger.specs.declared.fault.SessionFault.TheVariants.{Oracle as held};

use oracle::OracleFault;
use std::error::Error;
use std::fmt;

// Why a session refuses a call.
#[derive(Clone, Copy, PartialEq, Eq, Debug)]
pub enum SessionFault {
    // 11: no open or put is due.
    OutOfTurn,
    // 12: m is outside 1 to 64, n outside 1 to 85, or 6n above the field's span.
    BadSize,
    // 13: the matrix has not m·(3n + 1) entries, or the vector not m.
    BadLength,
    // 14: a polynomial has more coefficients than its turn allows.
    TooMany,
    // 15: the oracle refuses. Its fault is held whole.
    Oracle(OracleFault),
    // 21: no draw is due.
    DrawOutOfTurn,
    // 22: the challenge is zero.
    ZeroChallenge,
    // 31: judge is not due.
    JudgeOutOfTurn,
}

impl SessionFault {
    // The number of the refusal.
    pub fn number(self) -> u32
        ensures { result ≡ (told self).0 }
    {
        match self {
            SessionFault::OutOfTurn => 11,
            SessionFault::BadSize => 12,
            SessionFault::BadLength => 13,
            SessionFault::TooMany => 14,
            SessionFault::Oracle(_) => 15,
            SessionFault::DrawOutOfTurn => 21,
            SessionFault::ZeroChallenge => 22,
            SessionFault::JudgeOutOfTurn => 31,
        }
    }
}

impl fmt::Display for SessionFault {
    ghost output = { λ e. Some (words e) };

    fn fmt<W: fmt::Write>(&self, f: &mut fmt::Formatter<W>) -> fmt::Result {
        f.write_str(match self {
            SessionFault::OutOfTurn => "no such polynomial is due",
            SessionFault::BadSize => "m, n or 6n is out of bounds",
            SessionFault::BadLength => "M or x has the wrong length",
            SessionFault::TooMany => "too many coefficients for this turn",
            SessionFault::Oracle(_) => "the oracle refuses",
            SessionFault::DrawOutOfTurn => "no challenge is due",
            SessionFault::ZeroChallenge => "the challenge is zero",
            SessionFault::JudgeOutOfTurn => "judge is not due",
        })
    }
}

impl Error for SessionFault {}

impl From<OracleFault> for SessionFault {
    ghost from_gives = { λ e r. r ≡ held e };

    fn from(fault: OracleFault) -> SessionFault {
        SessionFault::Oracle(fault)
    }
}
