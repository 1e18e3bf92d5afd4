ghost use Rattle.std.specs.Prelude.{◌≡◌, ◌≤◌, true, length, take, vec_len, vec_capacity};
ghost use Rattle.oracle.specs.Tables.{chained};

use crate::table::{Entry, Table};
use crate::{MOST_COEFFICIENTS, MOST_LISTS};
use std::alloc::{AllocError, Global};

// The most items that the polynomials have in all.
const MOST_ITEMS: usize = MOST_LISTS * MOST_COEFFICIENTS;

// What an oracle stores: at most sixteen polynomials, each as a list of at most 16,384 items. The lists lie one behind
// the other in one storage, which is made once and never grows.
#[derive(Drop)]
pub struct Store<T> {
    storage: Vec<T>,
    table: Table,
    room: usize,
    ghost stocked: { room ≤ vec_capacity storage },
    ghost within: { vec_len storage ≤ room },
    ghost wide: { length table.entries ≡ 16 },
    ghost few: { table.len ≤ 16 },
    ghost chain: { chained 0 (take table.len table.entries) (vec_len storage) ≡ true },
}

impl<T: Copy> Store<T> {
    ghost use Rattle.std.specs.Prelude.{◌≡◌, ◌++◌, ◌∷◌, [], length, min, if◌then◌else◌, IfOk, option_map, slice_get};
    ghost use Rattle.std.specs.Option.{option_copied};
    ghost use Rattle.oracle.specs.Store.{lists_of, room_of, reserved_of, items_of, fits, takes, extended};
    ghost use Rattle.oracle.specs.Tables.{kept};

    // An empty store with room for so many items, but for no more than can ever stand.
    pub fn new(heap: Global, cells: u32) -> Result<Store<T>, AllocError>
        ensures empty { IfOk result (λ s. lists_of s ≡ []) }
        ensures room { IfOk result (λ s. room_of s ≡ min cells 262144) }
        ensures reserved { IfOk result (λ s. reserved_of s ≡ min cells 262144) }
    {
        let room = (cells as usize).min(MOST_ITEMS);
        let storage = Vec::with_capacity(heap, room)?;
        Ok(Store {
            storage,
            table: Table::empty(),
            room,
        })
    }

    // How many lists stand.
    pub fn standing(&self) -> usize
        ensures { result ≡ length (lists_of self.now) }
    {
        self.table.len
    }

    // Takes all lists down.
    pub fn clear(&mut self)
        ensures empty { lists_of self.new ≡ [] }
        ensures room { room_of self.new ≡ room_of self.old }
    {
        self.storage.clear();
        self.table.len = 0;
    }

    // The items of list k.
    #[tactic(auto, using(crate::proofs::StoreLemmas::entry_within))]
    pub fn list(&self, k: usize) -> Option<&[T]>
        ensures { option_copied result ≡ option_map (λ p. p.items) (slice_get (lists_of self.now) k) }
    {
        if k >= self.table.len {
            return None;
        }
        let Entry { start, count, .. } = self.table.entries[k];
        let storage = self.storage.as_slice();
        Some(&storage[start..start + count])
    }

    // The items of all lists, one list behind the other.
    pub fn items(&self) -> &[T]
        ensures { result.now ≡ items_of (lists_of self.now) }
    {
        self.storage.as_slice()
    }

    // Puts up a list that stands for so many coefficients, and answers whether it fits. If not, it changes nothing.
    #[tactic(auto, using(crate::proofs::StoreLemmas::fits_is))]
    pub fn append(&mut self, long: usize, items: &[T]) -> bool
        ensures answer { result ≡ fits (lists_of self.old) (room_of self.old) (length items.now) }
        ensures lists { lists_of self.new ≡ (if result then lists_of self.old ++ kept long items.now ∷ [] else lists_of self.old) }
        ensures room { room_of self.new ≡ room_of self.old }
    {
        let len = self.table.len;
        let start = self.storage.len();
        if len >= MOST_LISTS || items.len() > MOST_COEFFICIENTS || items.len() > self.room - start {
            return false;
        }
        self.storage.extend_from_slice(items).unwrap();
        self.table.entries[len].set(start, items.len(), long);
        self.table.len = len + 1;
        true
    }

    // Puts one item more behind those of the last list, and answers whether it fits. If not, it changes nothing.
    pub fn push(&mut self, item: T) -> bool
        ensures answer { result ≡ takes (lists_of self.old) (room_of self.old) }
        ensures lists { lists_of self.new ≡ (if result then extended (lists_of self.old) item else lists_of self.old) }
        ensures room { room_of self.new ≡ room_of self.old }
    {
        let Some(last) = self.table.len.checked_sub(1) else {
            return false;
        };
        let Entry { start, count, long } = self.table.entries[last];
        if count >= MOST_COEFFICIENTS || self.storage.len() >= self.room {
            return false;
        }
        self.storage.push_reserved(item);
        self.table.entries[last].set(start, count + 1, long);
        true
    }
}
