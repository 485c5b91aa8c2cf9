// Reads a loop table into a store that the caller lends.
#![tactic(auto)]

ghost use Rattle.std.specs.Prelude.{◌≡◌, ◌+◌, ◌<◌, ◌≤◌, eqb, ltb};
ghost use Rattle.model.specs.Table.{count};
ghost use Rattle.records.specs.Clear.{Room};
ghost use Rattle.reader.specs.Reading.{reading};
ghost use Rattle.reader.specs.Store.{first_at, last_at, start_at, kind_at, array_at, value_at, row_kind, arrays_in, loops_in, table_in, kept, rows_after, with_length, row_of, with_row, with_bounds, with_counts, Places, ArrayFits};
ghost use Rattle.reader.specs.Held.{Held};
ghost use Rattle.reader.specs.Rows.{ref_in, refers_to, LastDestination};
ghost use Rattle.reader.specs.ReadInto.{ReadInto};

use model::Reference;
use records::{Record, Row, RowKind, Store, Summary, Tested};
use refusals::{Ground, Refusal};

// How many arrays and how many loops there are.
pub fn arrays_in(store: &Store) -> usize
    ensures { result ≡ arrays_in store.now }
{
    store.arrays as usize
}

pub fn loops_in(store: &Store) -> usize
    ensures { result ≡ loops_in store.now }
{
    store.loops as usize
}

// The bounds of loop k.
pub fn first_at(store: &Store, k: usize) -> u32
    requires { k < 16 }
    ensures { result ≡ first_at store.now k }
{
    store.firsts[k]
}

pub fn last_at(store: &Store, k: usize) -> u32
    requires { k < 16 }
    ensures { result ≡ last_at store.now k }
{
    store.lasts[k]
}

// The row at which loop k begins.
pub fn start_at(store: &Store, k: usize) -> usize
    requires { k < 17 }
    ensures { result ≡ start_at store.now k }
{
    store.starts[k] as usize
}

// The kind, the array and the value of row r.
pub fn kind_at(store: &Store, r: usize) -> RowKind
    requires { r < 576 }
    ensures { result ≡ row_kind (kind_at store.now r) }
{
    store.rows[r].kind
}

pub fn array_at(store: &Store, r: usize) -> u32
    requires { r < 576 }
    ensures { result ≡ array_at store.now r }
{
    store.rows[r].array as u32
}

pub fn value_at(store: &Store, r: usize) -> u32
    requires { r < 576 }
    ensures { result ≡ value_at store.now r }
{
    store.rows[r].value
}

// Row r is a reference: a read's or a destination's.
pub fn is_reference(store: &Store, r: usize) -> bool
    requires { r < 576 }
    ensures { result ≡ ltb (kind_at store.now r) 2 }
{
    let kind = store.rows[r].kind;
    kind == RowKind::Read || kind == RowKind::Destination
}

// Row r is a destination's.
pub fn is_destination(store: &Store, r: usize) -> bool
    requires { r < 576 }
    ensures { result ≡ eqb (kind_at store.now r) 1 }
{
    store.rows[r].kind == RowKind::Destination
}

// The reference in row r of loop k.
pub fn reference_at(store: &Store, k: usize, r: usize) -> Reference
    requires { r < 576 }
    ensures { result ≡ ref_in store.now k r }
{
    Reference {
        number: k,
        array: array_at(store, r) as usize,
        offset: value_at(store, r) as usize,
        stores: is_destination(store, r),
    }
}

// Row r is a reference to array q. Both tests are made, so no branch goes by the kinds of other rows, which alternate irregularly.
pub fn refers_to(store: &Store, r: usize, q: usize) -> bool
    requires { (r < 576) × (q < 16) }
    ensures { result ≡ refers_to store.now r q }
{
    is_reference(store, r) & (store.rows[r].array as usize == q)
}

// The last row of loop k that is a destination's.
pub fn last_destination(store: &Store, k: usize) -> usize
    requires { Held store.now × (k < count (table_in store.now)) }
    ensures { LastDestination store.now k result }
{
    let start = start_at(store, k);
    let past = start_at(store, k + 1);
    for r in (start + 1..past).rev() {
        if kind_at(store, r) == RowKind::Destination {
            return r;
        }
    }
    start
}

// An array's length.
#[tactic(auto, unfolding(crate::specs::Store::with_length))]
fn put_length(q: usize, n: u32, store: &mut Store)
    requires { q < 16 }
    ensures { store.new ≡ with_length q n store.old }
{
    store.lengths[q] = n;
}

// A row of an array, which is one of sixteen.
fn row_of(kind: RowKind, q: u32, v: u32) -> Row
    requires { q < 16 }
    ensures { result ≡ row_of kind q v }
{
    Row {
        kind,
        array: q as u8,
        value: v,
    }
}

// One row more: loop k begins past it.
#[tactic(auto, unfolding(crate::specs::Store::with_row))]
fn put_row(k: usize, r: usize, kind: RowKind, q: u32, v: u32, store: &mut Store) -> usize
    requires { (k < 17) × (r < 576) × (q < 16) }
    ensures value { result ≡ r + 1 }
    ensures store_after { store.new ≡ with_row k r (row_of kind q v) store.old }
{
    store.starts[k] = (r + 1) as u32;
    store.rows[r] = row_of(kind, q, v);
    r + 1
}

#[tactic(auto, unfolding(crate::specs::Store::with_bounds))]
fn put_bounds(k: usize, first: u32, last: u32, store: &mut Store)
    requires { k < 16 }
    ensures { store.new ≡ with_bounds k first last store.old }
{
    store.firsts[k] = first;
    store.lasts[k] = last;
}

#[tactic(auto, unfolding(crate::specs::Store::with_counts))]
fn put_counts(arrays: u32, loops: u32, store: &mut Store)
    ensures { store.new ≡ with_counts arrays loops store.old }
{
    store.arrays = arrays;
    store.loops = loops;
}

// Stores a record that met no ground, in row r; answers how many rows there are then.
#[tactic(auto, unfolding(crate::specs::Store::kept, crate::specs::Store::rows_after))]
fn keep(x: Record, t: Summary, r: usize, store: &mut Store) -> usize
    requires room { Room x t }
    requires places { Places t r × (rows_after x r ≤ 576) × ArrayFits x }
    ensures value { result ≡ rows_after x r }
    ensures store_after { store.new ≡ kept x t r store.old }
{
    let k = t.loops as usize;
    match x {
        Record::Unknown | Record::End => r,
        Record::Array(n) => {
            put_length(t.arrays as usize, n, store);
            r
        }
        Record::Loop {
            first,
            last,
            array,
            offset,
        } => {
            put_bounds(k, first, last, store);
            put_row(k + 1, r, RowKind::Destination, array, offset, store)
        }
        Record::Read { array, offset } => put_row(k, r, RowKind::Read, array, offset, store),
        Record::Constant(n) => put_row(k, r, RowKind::Constant, 0, n, store),
        Record::Operation(o) => put_row(k, r, RowKind::Operation, 0, o, store),
        Record::Statement { array, offset } => put_row(
            k,
            r,
            RowKind::Destination,
            array,
            offset,
            store,
        ),
    }
}

// The table that the bytes are, in the lent store, or the ground that they meet and its place.
pub fn read_table(s: &[u8], store: &mut Store) -> Result<(), Refusal>
    ensures { ReadInto (reading s.now) result store.new }
{
    let mut t = Summary::blank();
    let mut at: usize = 0;
    let mut rows: usize = 0;
    store.starts[0] = 0;
    loop {
        let found = decoding::read_record(s, at, t, &store.lengths);
        match found {
            Tested::Refused(r) => return Err(r),
            Tested::Passed(x, n) => {
                rows = keep(x, t, rows, store);
                t = t.advance(x);
                at = n;
            }
            Tested::Ended(n) => {
                if n < s.len() {
                    return Err(Ground::Tail.met(n));
                }
                put_counts(t.arrays, t.loops, store);
                return Ok(());
            }
        }
    }
}
