ghost use Rattle.std.specs.Prelude.{◌≡◌, replicate};
ghost use Rattle.oracle.specs.Tables.{entry_of};

use crate::MOST_LISTS;

// Where one polynomial lies: its first item, how many it has there, and how many coefficients these stand for.
#[derive(Clone, Copy)]
pub(crate) struct Entry {
    pub start: usize,
    pub count: usize,
    pub long: usize,
}

impl Entry {
    pub(crate) fn set(&mut self, start: usize, count: usize, long: usize)
        ensures { self.new ≡ entry_of start count long }
    {
        self.start = start;
        self.count = count;
        self.long = long;
    }
}

// The places of at most sixteen polynomials, of which the first `len` stand.
#[derive(Clone, Copy)]
pub(crate) struct Table {
    pub entries: [Entry; MOST_LISTS],
    pub len: usize,
}

impl Table {
    // No polynomial stands.
    pub(crate) fn empty() -> Table
        ensures none { result.len ≡ 0 }
        ensures entries { result.entries ≡ replicate 16 (entry_of 0 0 0) }
    {
        let entry = Entry {
            start: 0,
            count: 0,
            long: 0,
        };
        Table {
            entries: [entry; MOST_LISTS],
            len: 0,
        }
    }
}
