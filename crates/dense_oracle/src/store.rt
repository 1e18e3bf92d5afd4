ghost use Rattle.std.specs.Prelude.{◌≡◌, ◌^◌, ◌<◌, min};
ghost use Rattle.oracle.specs.Store.{room_of};

use field::Field;
use oracle::{MOST_COEFFICIENTS, Oracle, OracleFault, Store, admit, counted_cells};
use polynomial::value_at;
use std::alloc::{AllocError, Global};

// An oracle that stores every coefficient, in a store that has as much room as they can ever need.
#[derive(Drop)]
pub struct DenseOracle<F> {
    store: Store<F>,
    cells: u32,
    ghost small: { cells < 2 ^ 32 },
    ghost stocked: { room_of store ≡ min cells 262144 },
}

impl<F: Field> DenseOracle<F> {
    ghost use Rattle.std.specs.Prelude.{◌≡◌, IfOk};
    ghost use Rattle.dense_oracle.specs.Dense.{dense_stand, fresh};

    // An oracle in which no polynomial stands. Cells beyond 2^32 - 1 are not counted.
    pub fn new(heap: Global, cells: u64) -> Result<DenseOracle<F>, AllocError>
        ensures { IfOk result (λ s. dense_stand s F.Field.mean ≡ fresh cells) }
    {
        let cells = counted_cells(cells);
        let store = Store::new(heap, cells)?;
        Ok(DenseOracle { store, cells })
    }
}

impl<F: Field> Oracle for DenseOracle<F> {
    ghost use Rattle.dense_oracle.specs.Dense.{dense_stand};
    ghost use Rattle.dense_oracle.specs.Stands;

    type Elem = F;

    ghost stand = { λ s f. dense_stand s f.mean };

    ghost sound = { λ s. Stands.sound s F.Field.mean };

    fn clear(&mut self) {
        self.store.clear();
    }

    fn needs(&self, p: &[F]) -> Result<u32, OracleFault> {
        if p.len() > MOST_COEFFICIENTS {
            return Err(OracleFault::TooLong);
        }
        Ok(p.len() as u32)
    }

    #[tactic(auto, using(crate::specs::Stands::stored_cells))]
    fn free(&self) -> u32 {
        self.cells - self.store.items().len() as u32
    }

    fn fix(&mut self, p: &[F]) -> Result<(), OracleFault> {
        admit(self.store.standing(), p.len(), p.len() as u64, self.free())?;
        let fits = self.store.append(p.len(), p);
        prove!(fits);
        Ok(())
    }

    fn ask(&self, k: usize, x: F) -> Result<F, OracleFault> {
        let p = self.store.list(k).ok_or(OracleFault::Absent)?;
        Ok(value_at(p, x))
    }
}
