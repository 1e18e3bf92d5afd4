ghost use Rattle.std.specs.Prelude.{Some};
ghost use Rattle.prover.specs.Findings.{finding_text};

use std::fmt;

// What the direct check finds: the claim is true, or the first row or gate that fails, rows before gates.
#[derive(Clone, Copy, PartialEq, Eq, Debug)]
pub enum Finding {
    AllHold,
    RowFails(usize),
    GateFails(usize),
}

impl fmt::Display for Finding {
    ghost output = { λ found. Some (finding_text found) };

    fn fmt<W: fmt::Write>(&self, f: &mut fmt::Formatter<W>) -> fmt::Result {
        match self {
            Finding::AllHold => write!(f, "every row and every gate holds"),
            Finding::RowFails(i) => write!(f, "row {i} is the first that fails"),
            Finding::GateFails(i) => {
                write!(f, "every row holds; gate {i} is the first that fails")
            }
        }
    }
}
