ghost use Rattle.std.specs.Prelude.{◌≡◌, ◌+◌, ◌^◌, ◌<◌, ◌≤◌, min, true};
ghost use Rattle.oracle.specs.Store.{lists_of, room_of, stored_of};
ghost use Rattle.sparse_oracle.specs.Terms.{all_climb};

use crate::loops::{count_terms, count_values, value_of, write_terms};
use crate::term::Term;
use field::Field;
use oracle::{MOST_COEFFICIENTS, Oracle, OracleFault, Store, admit, counted_cells};
use std::alloc::{AllocError, Global};

// An oracle that stores the coefficients other than zero, in a store that has as much room as they can ever need.
#[derive(Drop)]
pub struct SparseOracle<F> {
    store: Store<Term<F>>,
    spare: u32,
    ghost small: { spare + stored_of store < 2 ^ 32 },
    ghost stocked: { min (spare + stored_of store) 262144 ≤ room_of store },
    ghost climb: { all_climb (lists_of store) ≡ true },
}

impl<F: Field> SparseOracle<F> {
    ghost use Rattle.std.specs.Prelude.{◌≡◌, IfOk};
    ghost use Rattle.sparse_oracle.specs.Sparse.{sparse_stand, fresh};

    // An oracle in which no polynomial stands. Cells beyond 2^32 - 1 are not counted.
    pub fn new(heap: Global, cells: u64) -> Result<SparseOracle<F>, AllocError>
        ensures { IfOk result (λ s. sparse_stand s F.Field.ops F.Field.mean ≡ fresh F.Field.ops cells) }
    {
        let spare = counted_cells(cells);
        let store = Store::new(heap, spare)?;
        Ok(SparseOracle { store, spare })
    }
}

impl<F: Field> Oracle for SparseOracle<F> {
    ghost use Rattle.sparse_oracle.specs.Sparse.{sparse_stand};
    ghost use Rattle.sparse_oracle.specs.Stands;

    type Elem = F;

    ghost stand = { λ s f. sparse_stand s f.ops f.mean };

    ghost sound = { λ s. Stands.sound s F.Field.ops F.Field.mean F.Field.lawful };

    // The cells that the polynomials needed are counted: an invariant of the struct cannot speak of the field's zero, so it
    // does not say that none of the terms is zero.
    fn clear(&mut self) {
        self.spare += count_terms(self.store.items()) as u32;
        self.store.clear();
    }

    fn needs(&self, p: &[F]) -> Result<u32, OracleFault> {
        if p.len() > MOST_COEFFICIENTS {
            return Err(OracleFault::TooLong);
        }
        Ok(count_values(p) as u32)
    }

    fn free(&self) -> u32 {
        self.spare
    }

    fn fix(&mut self, p: &[F]) -> Result<(), OracleFault> {
        let needed = count_values(p);
        admit(self.store.standing(), p.len(), needed as u64, self.free())?;
        write_terms(&mut self.store, p);
        self.spare -= needed as u32;
        Ok(())
    }

    fn ask(&self, k: usize, x: F) -> Result<F, OracleFault> {
        let terms = self.store.list(k).ok_or(OracleFault::Absent)?;
        Ok(value_of(terms, x))
    }
}
