// Ground 9: two different iterations of one loop meet at an element, one of them storing.
#![tactic(auto)]

ghost use Rattle.std.specs.Prelude.{◌≡◌, ℕ, ◌-◌, ◌<◌, ◌≤◌, length};
ghost use Rattle.overlap.specs.Overlap.{some_from};
ghost use Rattle.refusals.specs.Answers.{accepted, result_of};
ghost use Rattle.model.specs.Table.{count};
ghost use Rattle.reader.specs.Store.{kind_at, loop_at, table_in};
ghost use Rattle.reader.specs.Stored.{Row};
ghost use Rattle.reader.specs.Rows.{refs_in};
ghost use Rattle.reader.specs.Held.{Held};
ghost use Rattle.reader.specs.ReadInto.{ReadInto};
ghost use Rattle.serial.specs.Serial.{collides, loop_hit, through, table};
ghost use Rattle.serial.specs.Rows.{rows_of, Known, collides_row, Partner, PartnerOrDestination, StoredAt, with_offset, differs};

use model::Reference;
use overlap::overlaps;
use records::Store;
use refusals::{Ground, Refusal};

// The rows of a loop, from `from` up to `past`, and its bounds.
#[derive(Clone, Copy)]
struct LoopRows {
    from: usize,
    past: usize,
    first: u32,
    last: u32,
}

// Those of loop k.
fn rows_of(store: &Store, k: usize) -> LoopRows
    requires { Held store.now × (k < count (table_in store.now)) }
    ensures is { result ≡ rows_of store.now k }
    ensures known { Known store.now result }
{
    LoopRows {
        from: reader::start_at(store, k),
        past: reader::start_at(store, k + 1),
        first: reader::first_at(store, k),
        last: reader::last_at(store, k),
    }
}

// Two references of a loop.
#[tactic(auto, unfolding(crate::specs::Serial::collides, model::specs::References::touch))]
fn collide(rows: LoopRows, x: Reference, y: Reference) -> bool
    requires { (x.offset < 65536) × (y.offset < 65536) }
    ensures { result ≡ collides rows.first rows.last x y }
{
    let f = rows.first as usize;
    let l = rows.last as usize;
    x.array == y.array
        && x.offset != y.offset
        && (x.stores || y.stores)
        && overlaps(f, l, x.offset, f, l, y.offset)
}

// A reference x and the row `row` of one loop: most rows are told by their array alone.
#[tactic(auto, unfolding(crate::specs::Serial::collides, model::specs::References::touch))]
fn row_collides(store: &Store, rows: LoopRows, x: Reference, row: usize) -> bool
    requires { (row < 576) × Row store.now row × (x.offset < 65536) }
    ensures { result ≡ collides_row store.now rows.first rows.last x row }
{
    reader::array_at(store, row) as usize == x.array
        && reader::is_reference(store, row)
        && collide(rows, x, reader::reference_at(store, 0, row))
}

// The first row of a loop behind `row` whose reference collides with that of `row`, if `row` has a reference.
fn partner(store: &Store, rows: LoopRows, row: usize) -> Option<usize>
    requires { Known store.now rows × (row < rows.past) }
    ensures { Partner store.now rows.first rows.last row rows.past result }
{
    if !reader::is_reference(store, row) {
        return None;
    }
    let x = reader::reference_at(store, 0, row);
    for other in row + 1..rows.past {
        if row_collides(store, rows, x, other) {
            return Some(other);
        }
    }
    None
}

// How many references the rows from `from` up to `past` have.
fn references_in(store: &Store, from: usize, past: usize) -> usize
    requires { past ≤ 576 }
    ensures { result ≡ length (refs_in store.now 0 from past) }
{
    let mut n: usize = 0;
    for row in from..past {
        if reader::is_reference(store, row) {
            n += 1;
        }
    }
    n
}

// The first row of a loop, behind its first, that is a destination's as that is, or collides with it.
fn partner_or_destination(store: &Store, rows: LoopRows) -> Option<usize>
    requires { Known store.now rows × (kind_at store.now rows.from ≡ 1) }
    ensures { PartnerOrDestination store.now rows.first rows.last rows.from rows.past result }
{
    let x = reader::reference_at(store, 0, rows.from);
    for other in rows.from + 1..rows.past {
        if reader::is_destination(store, other) {
            return Some(other);
        }
        if row_collides(store, rows, x, other) {
            return Some(other);
        }
    }
    None
}

// The offsets with one row more: a destination's sets that of its array.
#[tactic(auto, using(reader::specs::StoreLaws::array_small), unfolding(crate::specs::Rows::with_offset))]
fn put_offset(store: &Store, row: usize, offsets: &mut [Option<u32>; 16])
    requires { row < 576 }
    ensures { offsets.new ≡ with_offset store.now row offsets.old }
{
    if !reader::is_destination(store, row) {
        return;
    }
    let q = reader::array_at(store, row) as usize;
    offsets[q] = Some(reader::value_at(store, row));
}

// For each array an offset at which one of the rows from `from` up to `past` stores it, if one of them does.
fn stored_offsets(store: &Store, from: usize, past: usize) -> [Option<u32>; 16]
    requires { (from ≤ past) × (past ≤ 576) }
    ensures { StoredAt store.now from past result }
{
    let mut offsets = [None; 16];
    for row in from..past {
        put_offset(store, row, &mut offsets);
    }
    offsets
}

// Row `row` is a reference to an array that is stored, at another offset than that.
#[tactic(auto, using(reader::specs::StoreLaws::array_small), unfolding(crate::specs::Rows::differs))]
fn row_differs(store: &Store, offsets: &[Option<u32>; 16], row: usize) -> bool
    requires { row < 576 }
    ensures { result ≡ differs store.now offsets.now row }
{
    match offsets[reader::array_at(store, row) as usize] {
        Some(o) => o != reader::value_at(store, row) && reader::is_reference(store, row),
        None => false,
    }
}

// Some row from `from` up to `past` is one.
fn some_differs(store: &Store, offsets: &[Option<u32>; 16], from: usize, past: usize) -> bool
    requires { (from ≤ past) × (past ≤ 576) }
    ensures { result ≡ some_from (differs store.now offsets.now) from (past - from) }
{
    (from..past).any(|row| row_differs(store, offsets, row))
}

// The first two references of loop k that meet in two different iterations, one of them storing: their numbers among the loop's references, which are
// counted from 0 in byte order, the lower one first. They are found by holding each against all behind it. Behind the last destination there are
// reads alone, and no two of them do.
fn first_pair(k: usize, store: &Store) -> Option<(usize, usize)>
    requires { Held store.now × (k < count (table_in store.now)) }
    ensures { result ≡ loop_hit (loop_at store.now k) }
{
    let rows = rows_of(store, k);
    let end = reader::last_destination(store, k);
    for row in rows.from..end + 1 {
        if let Some(other) = partner(store, rows, row) {
            let lower = references_in(store, rows.from, row);
            let higher = references_in(store, rows.from, other);
            return Some((lower, higher));
        }
    }
    None
}

// The same of a loop of several statements. Where all references to each array that it stores have one offset, no two of them collide: so most loops
// are told by two passes over their rows, however many statements they have.
fn several_hit(k: usize, store: &Store) -> Option<(usize, usize)>
    requires { Held store.now × (k < count (table_in store.now)) }
    ensures { result ≡ loop_hit (loop_at store.now k) }
{
    let rows = rows_of(store, k);
    let offsets = stored_offsets(store, rows.from, rows.past);
    if some_differs(store, &offsets, rows.from, rows.past) {
        return first_pair(k, store);
    }
    None
}

// The same of any loop: one of a single statement is told by its destination's partner.
fn loop_hit(k: usize, store: &Store) -> Option<(usize, usize)>
    requires { Held store.now × (k < count (table_in store.now)) }
    ensures { result ≡ loop_hit (loop_at store.now k) }
{
    let rows = rows_of(store, k);
    let other = partner_or_destination(store, rows)?;
    if reader::is_destination(store, other) {
        return several_hit(k, store);
    }
    Some((0, references_in(store, rows.from, other)))
}

// The loops of a table in a store, from the first on: 9 carries the lowest that collides, and names its first pair that does.
fn check_loops(store: &Store) -> Result<(), Refusal>
    requires { Held store.now }
    ensures { ReadInto (through (accepted (table_in store.now))) result store.now }
{
    let loops = reader::loops_in(store);
    for k in 0..loops {
        if let Some((m, n)) = loop_hit(k, store) {
            return Err(Ground::Serial.naming(k, m, n));
        }
    }
    Ok(())
}

// The table that the bytes are, read through 9 into the lent store, or the ground that they meet.
pub fn read_through(s: &[u8], store: &mut Store) -> Result<(), Refusal>
    ensures { ReadInto (table s.now) result store.new }
{
    reader::read_table(s, store)?;
    check_loops(store)
}

// Whether the bytes are accepted, or the ground that they meet.
pub fn check(s: &[u8]) -> Result<(), Refusal>
    ensures { result ≡ result_of (λ _. tt) (table s.now) }
{
    let mut store = Store::new();
    read_through(s, &mut store)
}
