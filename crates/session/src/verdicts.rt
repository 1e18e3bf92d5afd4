ghost use Rattle.std.specs.Prelude.{◌≡◌, Some};
ghost use Rattle.session.specs.Verdicts.{verdict_number, words};

use std::fmt;

// What a session finds of a transcript.
#[derive(Clone, Copy, PartialEq, Eq, Debug)]
pub enum Verdict {
    // 0: it was not judged yet.
    Pending,
    // 1: all three equations hold.
    Accepted,
    // 2: one of them does not.
    TurnedDown,
}

impl Verdict {
    // The number of the verdict.
    pub fn number(self) -> u32
        ensures { result ≡ verdict_number self }
    {
        match self {
            Verdict::Pending => 0,
            Verdict::Accepted => 1,
            Verdict::TurnedDown => 2,
        }
    }
}

impl fmt::Display for Verdict {
    ghost output = { λ v. Some (words v) };

    fn fmt<W: fmt::Write>(&self, f: &mut fmt::Formatter<W>) -> fmt::Result {
        f.write_str(match self {
            Verdict::Pending => "none",
            Verdict::Accepted => "accepted",
            Verdict::TurnedDown => "turned down",
        })
    }
}

// What a session says of itself: its turn, its verdict, and how many calls it refused, up to 4,294,967,295.
#[derive(Clone, Copy, PartialEq, Eq, Debug)]
pub struct Report {
    pub turn: u8,
    pub verdict: Verdict,
    pub count: u32,
}
