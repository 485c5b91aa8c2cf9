// The arrays that the loops of a table touch and those that they write, counted before and after fusion.
#![tactic(auto)]

ghost use Rattle.std.specs.Prelude.{◌≡◌, ◌+◌, ◌&&◌, ◌||◌, ℕ, ◌<◌, ◌≤◌, eqb};
ghost use Rattle.marks.specs.Marks.{marked, size};
ghost use Rattle.model.specs.Table.{count};
ghost use Rattle.reader.specs.Store.{table_in};
ghost use Rattle.reader.specs.Held.{Held};
ghost use Rattle.sweeps.specs.Sweeps.{sweeps};
ghost use Rattle.sweeps.specs.Rows.{SetsOf, Added};

use records::Store;

// Before: the sizes of both sets summed over all loops. After: the sizes of the two unions.
#[derive(Clone, Copy, Debug, PartialEq, Eq)]
pub struct Sweeps {
    pub before: u32,
    pub after: u32,
}

// The arrays that some rows touch, and those that they write.
#[derive(Clone, Copy)]
struct Sets {
    touched: u16,
    written: u16,
}

// What the loops so far give: the sizes of their sets summed, and the unions of their sets.
#[derive(Clone, Copy)]
struct Totals {
    before: u32,
    sets: Sets,
}

// The set m, with the mark q where that is so. Two values of which one is taken make no branch: rows' kinds alternate irregularly.
fn with_mark_if(so: bool, m: u16, q: usize) -> u16
    requires { q < 16 }
    ensures { (p : ℕ) → marked result p ≡ (marked m p || (so && eqb p q)) }
{
    if so { marks::with_mark(m, q) } else { m }
}

impl Sets {
    // With one row more, of the array q: a reference adds it to those touched, a destination to those written.
    fn with_row(self, refers: bool, stores: bool, q: usize) -> Self
        requires { q < 16 }
        ensures touches { (p : ℕ) → marked result.touched p ≡ (marked self.touched p || (refers && eqb p q)) }
        ensures writes { (p : ℕ) → marked result.written p ≡ (marked self.written p || (stores && eqb p q)) }
    {
        Sets {
            touched: with_mark_if(refers, self.touched, q),
            written: with_mark_if(stores, self.written, q),
        }
    }

    // With those of another.
    fn union(self, more: Sets) -> Self
        ensures touches { (q : ℕ) → marked result.touched q ≡ (marked self.touched q || marked more.touched q) }
        ensures writes { (q : ℕ) → marked result.written q ≡ (marked self.written q || marked more.written q) }
    {
        Sets {
            touched: marks::union(self.touched, more.touched),
            written: marks::union(self.written, more.written),
        }
    }

    // Both sizes.
    fn sizes(self) -> u32
        ensures { (result ≡ size (marked self.touched) + size (marked self.written)) × (result ≤ 32) }
    {
        marks::size_of(self.touched) + marks::size_of(self.written)
    }
}

// The sets of loop k.
#[tactic(auto, using(crate::proofs::Walks::rows_past))]
fn sets_of(k: usize, store: &Store) -> Sets
    requires { Held store.now × (k < count (table_in store.now)) }
    ensures { SetsOf (table_in store.now) k result }
{
    let mut s = Sets {
        touched: 0,
        written: 0,
    };
    for row in reader::start_at(store, k)..reader::start_at(store, k + 1) {
        let q = reader::array_at(store, row) as usize;
        s = s.with_row(
            reader::is_reference(store, row),
            reader::is_destination(store, row),
            q,
        );
    }
    s
}

impl Totals {
    // With one loop more.
    fn with_loop(self, k: usize, store: &Store) -> Self
        requires { (self.before < 65536) × Held store.now × (k < count (table_in store.now)) }
        ensures { Added self result (table_in store.now) k }
    {
        let sets = sets_of(k, store);
        Totals {
            before: self.before + sets.sizes(),
            sets: self.sets.union(sets),
        }
    }
}

// The sweeps of the table in a store.
pub fn sweeps_of(store: &Store) -> Sweeps
    requires { Held store.now }
    ensures { result ≡ sweeps (table_in store.now) }
{
    let mut s = Totals {
        before: 0,
        sets: Sets {
            touched: 0,
            written: 0,
        },
    };
    for k in 0..reader::loops_in(store) {
        s = s.with_loop(k, store);
    }
    Sweeps {
        before: s.before,
        after: s.sets.sizes(),
    }
}
