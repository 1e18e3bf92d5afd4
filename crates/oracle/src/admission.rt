ghost use Rattle.std.specs.Prelude.{◌≡◌, min, Some, None, Ok, Err};
ghost use Rattle.oracle.specs.Admission.{refusal_of};
ghost use Rattle.oracle.specs.Faults.{told};

use crate::{MOST_COEFFICIENTS, MOST_LISTS, OracleFault};

// The cells that are counted of those asked for: at most 2^32 - 1.
pub fn counted_cells(asked: u64) -> u32
    ensures { result ≡ min asked 4294967295 }
{
    u32::try_from(asked).unwrap_or(u32::MAX)
}

// Refuses a list to be fixed, with 62, 63 or 61, by what stands, its length, and the cells that it needs and that are free.
pub fn admit(standing: usize, long: usize, needed: u64, free: u32) -> Result<(), OracleFault>
    ensures { elim result [ Ok _ ↦ refusal_of standing long needed free ≡ None | Err e ↦ refusal_of standing long needed free ≡ Some (told e) ] }
{
    if standing >= MOST_LISTS {
        return Err(OracleFault::Full);
    }
    if long > MOST_COEFFICIENTS {
        return Err(OracleFault::TooLong);
    }
    if needed > u64::from(free) {
        return Err(OracleFault::NoRoom { needed, free });
    }
    Ok(())
}
