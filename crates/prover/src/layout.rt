ghost use Rattle.std.specs.Prelude.{◌≡◌, ◌↔◌, true, false, length, Ok, Err, IsSome, IfSome};
ghost use Rattle.prover.specs.Claims.{in_range as sizes_fit};
ghost use Rattle.prover.specs.Layouts.{layout_of, InOrder, SplitAt};
ghost use Rattle.prover.specs.declared.refusal.Refusal.TheVariants.{BadSize};

use crate::refusal::{Refusal, in_range};
use field::Field;

// Where the polynomials of a reply end, which lie one behind the other from the first cell on.
#[derive(Clone, Copy)]
pub struct Layout {
    pub r_end: usize,
    pub q_end: usize,
    pub h1_end: usize,
    pub h2_end: usize,
}

impl Layout {
    // The layout of the reply to a claim of these sizes, or 12 where the field allows none of them.
    pub fn of<F: Field>(m: usize, n: usize) -> Result<Layout, Refusal>
        ensures { elim result [
          | Ok l ↦ (sizes_fit F.Field.ops.span m n ≡ true) × (l ≡ layout_of m n)
          | Err e ↦ (sizes_fit F.Field.ops.span m n ≡ false) × (e ≡ BadSize)
        ] }
    {
        if !in_range::<F>(m, n) {
            return Err(Refusal::BadSize);
        }
        let width = 3 * n + 1;
        let rows = m * width;
        Ok(Layout {
            r_end: width,
            q_end: rows,
            h1_end: rows + (6 * n + 1),
            h2_end: rows + 8 * n,
        })
    }

    // The polynomials that lie in the cells, or `None` where an end is past the next or past the cells.
    pub fn split<'a, F>(self, cells: &'a [F]) -> Option<Reply<'a, F>>
        ensures found { IsSome result ↔ InOrder self (length cells.now) }
        ensures parts { IfSome result (SplitAt self cells.now) }
    {
        Some(Reply {
            r: cells.get(..self.r_end)?,
            q: cells.get(self.r_end..self.q_end)?,
            h1: cells.get(self.q_end..self.h1_end)?,
            h2: cells.get(self.h1_end..self.h2_end)?,
        })
    }
}

// The polynomials of a reply.
#[derive(Clone, Copy)]
pub struct Reply<'a, F> {
    pub r: &'a [F],
    pub q: &'a [F],
    pub h1: &'a [F],
    pub h2: &'a [F],
}
