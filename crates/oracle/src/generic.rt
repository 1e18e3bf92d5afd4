ghost use Rattle.std.specs.Prelude.{◌≡◌, map, Ok, Err};
ghost use Rattle.oracle.specs.Faults.{tells};
ghost use Rattle.oracle.specs.Standing.{emptied, fix_after, recall_answer};

use crate::{Oracle, OracleFault};
use field::Field;

// Clears an oracle, fixes a list in it, and asks for its value at a point.
pub fn recall<O: Oracle>(oracle: &mut O, p: &[O::Elem], x: O::Elem) -> Result<O::Elem, OracleFault>
    ensures answer { tells O.Elem.Field.mean result ≡ recall_answer O.Elem.Field.ops (O.Oracle.stand oracle.old O.Elem.Field) (map O.Elem.Field.mean p.now) (O.Elem.Field.mean x) }
    ensures after { O.Oracle.stand oracle.new O.Elem.Field ≡ fix_after (emptied (O.Oracle.stand oracle.old O.Elem.Field)) (map O.Elem.Field.mean p.now) }
    ensures tidy { elim result [ Ok v ↦ O.Elem.Field.reduced v | Err _ ↦ Unit {0} ] }
{
    oracle.clear();
    oracle.fix(p)?;
    oracle.ask(0, x)
}
