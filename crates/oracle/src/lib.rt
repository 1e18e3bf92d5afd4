// Polynomial oracles: what stores polynomials and answers their values at points.
#![tactic(auto)]

ghost use Rattle.std.specs.Prelude.{◌≡◌, map, Ok, Err};
ghost use Rattle.field.specs.declared.Field.{Ghosts as FieldGhosts};
ghost use Rattle.oracle.specs.Faults.{tells};
ghost use Rattle.oracle.specs.Standing.{Standing, Sound, emptied, needs_answer, free_of, fix_answer, fix_after, ask_answer};

use field::Field;

mod admission;
mod fault;
mod generic;
mod store;
mod table;

pub use admission::{admit, counted_cells};
pub use fault::OracleFault;
pub use generic::recall;
pub use store::Store;

// The most polynomials that stand, and the most coefficients that one has.
pub const MOST_LISTS: usize = 16;

pub const MOST_COEFFICIENTS: usize = 16384;

// A polynomial oracle. Its meaning is the list of the polynomials that stand, its cells in all, and its rule for
// the cells that a list needs. Only `clear` and an accepted `fix` change the list, and nothing changes cells or rule.
pub trait Oracle {
    type Elem: Field;

    // The meaning, over the carrier of the elements' field.
    ghost stand: { Self → (f : FieldGhosts Self.Elem) → Standing f.K };

    // Empties the list.
    fn clear(&mut self)
        ensures { stand self.new Self.Elem.Field ≡ emptied (stand self.old Self.Elem.Field) };

    // The cells that a list needs, or 63.
    fn needs(&self, p: &[Self::Elem]) -> Result<u32, OracleFault>
        ensures { tells (λ c. c) result ≡ needs_answer (stand self.now Self.Elem.Field) (map Self.Elem.Field.mean p.now) };

    // The free cells.
    fn free(&self) -> u32
        ensures { result ≡ free_of (stand self.now Self.Elem.Field) };

    // Appends a polynomial, or refuses with 62, 63 or 61 and changes nothing.
    fn fix(&mut self, p: &[Self::Elem]) -> Result<(), OracleFault>
        ensures answer { tells (λ u. u) result ≡ fix_answer (stand self.old Self.Elem.Field) (map Self.Elem.Field.mean p.now) }
        ensures after { stand self.new Self.Elem.Field ≡ fix_after (stand self.old Self.Elem.Field) (map Self.Elem.Field.mean p.now) };

    // The value of polynomial k, counted from 0, at a point, or 64.
    fn ask(&self, k: usize, x: Self::Elem) -> Result<Self::Elem, OracleFault>
        ensures answer { tells Self.Elem.Field.mean result ≡ ask_answer Self.Elem.Field.ops (stand self.now Self.Elem.Field) k (Self.Elem.Field.mean x) }
        ensures tidy { elim result [ Ok v ↦ Self.Elem.Field.reduced v | Err _ ↦ Unit {0} ] };

    ghost sound: { (s : Self) → Sound (stand s Self.Elem.Field) };
}
