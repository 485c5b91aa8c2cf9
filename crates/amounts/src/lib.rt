// Shifts and peels: the largest totals of backward and of forward amounts over all chains of dependences that end at a loop, found in a
// single walk over the rows of the store. Each reference that the walk comes to is paired with every reference of an earlier loop, each pair once,
// and is then kept in columns, in which the references of later loops find it.
#![tactic(auto)]

ghost use Rattle.std.specs.Prelude.{◌≡◌, true, ◌+◌, ◌*◌, ◌<◌, ◌≤◌, max, length};
ghost use Rattle.order.specs.Sequences.{joined};
ghost use Rattle.model.specs.Table.{count};
ghost use Rattle.model.specs.References.{refs, touch};
ghost use Rattle.reader.specs.Store.{start_at, table_in};
ghost use Rattle.reader.specs.Held.{Held};
ghost use Rattle.chains.specs.Dependence.{meet_in, backward, forward};
ghost use Rattle.chains.specs.TableGraph.{graph};
ghost use Rattle.chains.specs.Walk.{shifts, peels};
ghost use Rattle.chains.specs.Steps.{at, raised_by, take_up, step, walked};
ghost use Rattle.chains.specs.Threshold.{threshold};
ghost use Rattle.amounts.specs.Rows.{past_row};
ghost use Rattle.columns.specs.Columns.{ref_at, searched_in, with_reference};
ghost use Rattle.amounts.specs.Walked.{ReferenceFits, Pairable, Earlier, NextStep, SomeNext, Taken, Bounded, numbers_of, WalkedTo};

use columns::{Column, Columns};
use model::Reference;
use records::Store;

// The amounts of shifting and peeling, for each loop a shift and a peel; 0 past the last loop.
#[derive(Clone, Copy)]
pub struct Amounts {
    pub shifts: [u32; 16],
    pub peels: [u32; 16],
}

// What a whole walk leaves: the amounts, and how many steps it has made.
#[derive(Clone, Copy)]
struct Totals {
    amounts: Amounts,
    made: usize,
}

// What a walk has come to: what its steps have left of the amounts, and the references that it has come past, how many they are and the references in
// columns. Its steps are counted beside it: nothing asks for the count when it runs, and the compiler drops one that stands alone.
#[derive(Drop)]
struct Progress {
    amounts: Amounts,
    references: usize,
    columns: Columns,
}

// Whether some iterations of the loops of x and y, within their bounds, are at elements of one number. That the array is one is asked
// elsewhere.
pub fn meet(store: &Store, x: Reference, y: Reference) -> bool
    requires { Held store.now × ReferenceFits (table_in store.now) x × ReferenceFits (table_in store.now) y }
    ensures { result ≡ meet_in (table_in store.now) x y }
{
    let j = x.number;
    let k = y.number;
    overlap::overlaps(
        reader::first_at(store, j) as usize,
        reader::last_at(store, j) as usize,
        x.offset,
        reader::first_at(store, k) as usize,
        reader::last_at(store, k) as usize,
        y.offset,
    )
}

// What the references x and y, to one array and one of them storing, leave of the shifts and peels: where they meet they make a dependence, and
// the numbers of y's loop are raised to what it requires.
fn raise(store: &Store, x: Reference, y: Reference, amounts: &mut Amounts)
    requires held { Held store.now × ReferenceFits (table_in store.now) x × ReferenceFits (table_in store.now) y }
    requires number_lt_number { (x.number < y.number) × (touch x y ≡ true) × Bounded amounts.old.shifts amounts.old.peels }
    ensures shifts_after { amounts.new.shifts ≡ raised_by (graph (table_in store.now)) backward x y amounts.old.shifts }
    ensures peels_after { amounts.new.peels ≡ raised_by (graph (table_in store.now)) forward x y amounts.old.peels }
{
    if meet(store, x, y) {
        let j = x.number;
        let k = y.number;
        let shift = amounts.shifts[j] + y.offset.saturating_sub(x.offset) as u32;
        let peel = amounts.peels[j] + x.offset.saturating_sub(y.offset) as u32;
        amounts.shifts[k] = amounts.shifts[k].max(shift);
        amounts.peels[k] = amounts.peels[k].max(peel);
    }
}

// One step of the walk: takes up the pair of the reference at position x and y, which is the next one. `column` is that in which y's partners are.
// `made` counts the steps.
fn take_up(
    store: &Store,
    columns: &Columns,
    column: &Column,
    x: usize,
    y: Reference,
    amounts: &mut Amounts,
    made: &mut usize,
)
    requires held { Held store.now × (column.now ≡ searched_in columns.now y.stores) × Pairable (table_in store.now) columns.now x y }
    requires bounded { Bounded amounts.old.shifts amounts.old.peels × NextStep (table_in store.now) columns.now x y made.old × (made.old < 1000000) }
    ensures { numbers_of amounts.new made.new ≡ take_up (graph (table_in store.now)) (ref_at columns.now x) y (numbers_of amounts.old made.old) }
{
    *made += 1;
    if columns.touches(column, x, y) {
        raise(store, columns.reference_at(x), y, amounts);
    }
}

// Takes up the pairs of y with the references at positions below `from`, which are those of earlier loops.
fn take_earlier(
    store: &Store,
    columns: &Columns,
    from: usize,
    y: Reference,
    amounts: &mut Amounts,
    made: &mut usize,
)
    requires held { Held store.now × Earlier (table_in store.now) columns.now from y × SomeNext (table_in store.now) columns.now from y made.old }
    requires bounded { Bounded amounts.old.shifts amounts.old.peels × (made.old ≤ 576 * 576) }
    ensures taken { Taken (table_in store.now) columns.now from y (numbers_of amounts.old made.old) (numbers_of amounts.new made.new) }
    ensures bounded_2 { Bounded amounts.new.shifts amounts.new.peels × (made.new ≤ made.old + 576) }
{
    let column = columns.searched(y.stores);
    for x in 0..from {
        take_up(store, columns, column, x, y, amounts, made);
    }
}

// Takes up the pairs whose later reference is y, the next one of the table, and then puts y into the columns, at its position.
fn take_later(store: &Store, y: Reference, from: usize, walk: &mut Progress, made: &mut usize)
    requires held { Held store.now × Earlier (table_in store.now) walk.old.columns from y × SomeNext (table_in store.now) walk.old.columns from y made.old }
    requires bounded { Bounded walk.old.amounts.shifts walk.old.amounts.peels × (made.old ≤ 576 * walk.old.references) × (walk.old.references < 576) }
    ensures references_after { walk.new.references ≡ walk.old.references + 1 }
    ensures columns_after { walk.new.columns ≡ with_reference walk.old.references y walk.old.columns }
    ensures taken { Taken (table_in store.now) walk.old.columns from y (numbers_of walk.old.amounts made.old) (numbers_of walk.new.amounts made.new) }
    ensures bounded_2 { Bounded walk.new.amounts.shifts walk.new.amounts.peels × (made.new ≤ made.old + 576) }
{
    take_earlier(store, &walk.columns, from, y, &mut walk.amounts, made);
    walk.columns.put(walk.references, y);
    walk.references += 1;
}

// The walk past row r of loop k: a read's row and a destination's are a reference, other rows are none. There are `from` references in earlier
// loops.
#[tactic(auto, using(crate::proofs::Laws::row_bounds))]
fn walk_row(store: &Store, k: usize, r: usize, from: usize, walk: &mut Progress, made: &mut usize)
    requires held { Held store.now × (k < count (table_in store.now)) × (from ≡ length (joined k (refs (table_in store.now)))) }
    requires k_bound { (start_at store.now k ≤ r) × (r < start_at store.now (k + 1)) }
    requires walked { WalkedTo (table_in store.now) (past_row store.now k r) walk.old made.old }
    ensures { WalkedTo (table_in store.now) (past_row store.now k (r + 1)) walk.new made.new }
{
    if reader::is_reference(store, r) {
        take_later(store, reader::reference_at(store, k, r), from, walk, made);
    }
}

// The walk past the references of loop k, row by row. Of the shifts and peels it changes those of loop k.
#[tactic(auto, using(crate::proofs::Laws::row_bounds))]
fn walk_loop(store: &Store, k: usize, walk: &mut Progress, made: &mut usize)
    requires held { Held store.now × (k < count (table_in store.now)) }
    requires walked { WalkedTo (table_in store.now) (joined k (refs (table_in store.now))) walk.old made.old }
    ensures { WalkedTo (table_in store.now) (joined (k + 1) (refs (table_in store.now))) walk.new made.new }
{
    let from = walk.references;
    for r in reader::start_at(store, k)..reader::start_at(store, k + 1) {
        walk_row(store, k, r, from, walk, made);
    }
}

// The walk: over all references in byte order, and for each over the references of earlier loops. Every pair of references of two loops is taken
// up, pairs of two reads too, and each once; what is left is what the steps leave, one after the other.
fn walk(store: &Store) -> Totals
    requires { Held store.now }
    ensures { numbers_of result.amounts result.made ≡ walked (graph (table_in store.now)) }
{
    let mut walk = Progress {
        amounts: Amounts {
            shifts: [0; 16],
            peels: [0; 16],
        },
        references: 0,
        columns: Columns::new(),
    };
    let mut made: usize = 0;
    for k in 0..reader::loops_in(store) {
        walk_loop(store, k, &mut walk, &mut made);
    }
    Totals {
        amounts: walk.amounts,
        made,
    }
}

// The amounts that the walk leaves, which are the largest totals over all chains.
pub fn amounts_of(store: &Store) -> Amounts
    requires { Held store.now }
    ensures shifts_value { result.shifts ≡ shifts (graph (table_in store.now)) }
    ensures peels_value { result.peels ≡ peels (graph (table_in store.now)) }
{
    walk(store).amounts
}

// The largest sum of shift and peel of one loop.
pub fn threshold_of(a: Amounts) -> usize
    ensures { result ≡ threshold a.shifts a.peels }
{
    let mut t: usize = 0;
    for k in 0..16 {
        t = t.max(a.shifts[k] as usize + a.peels[k] as usize);
    }
    t
}
