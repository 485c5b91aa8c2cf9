// Public entries on plans: the numbers asked for, four bytes each, in lent bytes; or a refusal, which leaves them as found.
#![tactic(auto)]

ghost use Rattle.std.specs.Prelude.{[], ◌∷◌, ◌++◌, ◌*◌, ◌^◌, ◌<◌, ◌≤◌, length};
ghost use Rattle.order.specs.Sequences.{joined};
ghost use Rattle.reader.specs.Store.{loops_in, table_in};
ghost use Rattle.reader.specs.Held.{Held};
ghost use Rattle.grounds.specs.Accepted.{Valid};
ghost use Rattle.blocks.specs.Sums.{column};
ghost use Rattle.blocks.specs.Code.{Cuttable};
ghost use Rattle.lists.specs.Fusion.{fusion_in, work};
ghost use Rattle.text.specs.Lent.{Put};
ghost use Rattle.text.specs.Puts.{Puts};
ghost use Rattle.numbers.specs.Numbers.{four, encoded};
ghost use Rattle.outputs.specs.Given.{fitted};
ghost use Rattle.outputs.specs.Gives.{Gives};
ghost use Rattle.plans.specs.Plans.{threshold_of};
ghost use Rattle.plans.specs.Code.{planned_in, Laid};
ghost use Rattle.ranges.specs.Code.{list_of};
ghost use Rattle.ranges.specs.Code.{range_of as range_in};
ghost use Rattle.sweeps.specs.Sweeps.{before, after};
ghost use Rattle.entries.specs.Entries.{amounts_of, blocks_of, pairs_of, empty_as_zero, ranges_of, amounts, thresholds, sweeps_given, blocks_given, list_given, ranges_given};
ghost use Rattle.entries.specs.Code.{Fitting};

use amounts::Amounts;
use blocks::{Axis, Range};
use numbers::{NUMBER, PAIR};
use plans::Settings;
use ranges::PhaseRanges;
use records::Store;
use refusals::Refusal;
use text::Writer;

// Shift and peel of each of n loops.
fn write_amounts(out: &mut [u8], n: usize, a: &Amounts) -> usize
    requires { n ≤ 16 }
    ensures { Put out.old 0 (encoded (joined n (λ k. column a.now.shifts k ∷ column a.now.peels k ∷ []))) (8 * n) out.new result }
{
    let mut row = Writer::new(out);
    for k in 0..n {
        numbers::put_pair(&mut row, a.shifts[k], a.peels[k]);
    }
    row.count()
}

// Shift and peel of each loop of the table in a store, or 13.
fn give_amounts(out: &mut [u8], store: &Store) -> Result<usize, Refusal>
    requires { Held store.now }
    ensures { Gives (fitted (length out.old) (encoded (amounts_of (table_in store.now)))) out.old out.new result }
{
    let loops = reader::loops_in(store);
    if out.len() < PAIR * loops {
        return Err(outputs::short());
    }
    let a = amounts::amounts_of(store);
    Ok(write_amounts(out, loops, &a))
}

// Shift and peel of each loop.
pub fn shifts_and_peels(s: &[u8], out: &mut [u8]) -> Result<usize, Refusal>
    ensures { Gives (amounts s.now (length out.old)) out.old out.new result }
{
    let mut store = Store::new();
    serial::read_through(s, &mut store)?;
    give_amounts(out, &store)
}

// The threshold of the table in a store, or 13.
fn give_threshold(out: &mut [u8], store: &Store) -> Result<usize, Refusal>
    requires { Held store.now × Valid (table_in store.now) }
    ensures { Gives (fitted (length out.old) (encoded (threshold_of (table_in store.now) ∷ []))) out.old out.new result }
{
    if out.len() < NUMBER {
        return Err(outputs::short());
    }
    let a = amounts::amounts_of(store);
    let x = amounts::threshold_of(a) as u32;
    let mut row = Writer::new(out);
    numbers::put_number(&mut row, x);
    Ok(row.count())
}

// The threshold.
pub fn threshold(s: &[u8], out: &mut [u8]) -> Result<usize, Refusal>
    ensures { Gives (thresholds s.now (length out.old)) out.old out.new result }
{
    let mut store = Store::new();
    serial::read_through(s, &mut store)?;
    give_threshold(out, &store)
}

// The sweeps of the table in a store, or 13.
fn give_sweeps(out: &mut [u8], store: &Store) -> Result<usize, Refusal>
    requires { Held store.now }
    ensures { Gives (fitted (length out.old) (encoded (before (table_in store.now) ∷ after (table_in store.now) ∷ []))) out.old out.new result }
{
    if out.len() < PAIR {
        return Err(outputs::short());
    }
    let w = sweeps::sweeps_of(store);
    let mut row = Writer::new(out);
    numbers::put_pair(&mut row, w.before, w.after);
    Ok(row.count())
}

// Sweeps before and after fusion.
pub fn sweeps(s: &[u8], out: &mut [u8]) -> Result<usize, Refusal>
    ensures { Gives (sweeps_given s.now (length out.old)) out.old out.new result }
{
    let mut store = Store::new();
    serial::read_through(s, &mut store)?;
    give_sweeps(out, &store)
}

// The first and the last index of each block.
fn write_blocks(out: &mut [u8], a: &Axis) -> usize
    requires { (a.now.blocks ≤ 64) × Cuttable a.now }
    ensures { Put out.old 0 (encoded (blocks_of (fusion_in a.now))) (8 * a.now.blocks) out.new result }
{
    let mut row = Writer::new(out);
    for b in 0..a.blocks {
        let r = a.block(b);
        let last = r.past.saturating_sub(1);
        numbers::put_pair(&mut row, r.from, last);
    }
    row.count()
}

// The blocks, or 13.
fn give_blocks(out: &mut [u8], a: &Axis) -> Result<usize, Refusal>
    requires { (a.now.blocks ≤ 64) × Cuttable a.now }
    ensures { Gives (fitted (length out.old) (encoded (blocks_of (fusion_in a.now)))) out.old out.new result }
{
    if out.len() < PAIR * a.blocks as usize {
        return Err(outputs::short());
    }
    Ok(write_blocks(out, a))
}

// Each block's first and last index.
pub fn blocks(s: &[u8], w: Settings, out: &mut [u8]) -> Result<usize, Refusal>
    ensures { Gives (blocks_given s.now w (length out.old)) out.old out.new result }
{
    let mut store = Store::new();
    let axis = plans::plan_table(s, w, &mut store)?;
    give_blocks(out, &axis)
}

// Loop and iteration of each of `size` in the list of a phase that kept ranges give.
fn write_list(out: &mut [u8], phase: u32, loops: usize, size: usize, ranges: &PhaseRanges) -> usize
    requires { (loops ≤ 16) × Fitting size (list_of ranges.now loops phase) }
    ensures { Put out.old 0 (encoded (pairs_of (list_of ranges.now loops phase))) (8 * size) out.new result }
{
    let mut row = Writer::new(out);
    for n in 0..size {
        let x = ranges::nth_of(phase, loops, ranges, n);
        numbers::put_pair(&mut row, x.number as u32, x.index as u32);
    }
    row.count()
}

// The list of processor b in a phase, or 13.
fn give_list(out: &mut [u8], phase: u32, a: &Axis, b: u32, store: &Store) -> Result<usize, Refusal>
    requires { Laid a.now store.now × (b < a.now.blocks) }
    ensures { Gives (fitted (length out.old) (encoded (pairs_of (work (table_in store.now) (fusion_in a.now) phase b)))) out.old out.new result }
{
    let mut ranges = PhaseRanges::new();
    let size = ranges::put_list(phase, a, b, store, &mut ranges);
    if out.len() < PAIR * size {
        return Err(outputs::short());
    }
    Ok(write_list(out, phase, reader::loops_in(store), size, &ranges))
}

// Loop and iteration of each in processor b's list in a phase: 0 is its fused list, 1 its peeled one.
pub fn list(s: &[u8], phase: u32, w: Settings, b: u32, out: &mut [u8]) -> Result<usize, Refusal>
    ensures { Gives (list_given phase s.now w b (length out.old)) out.old out.new result }
{
    let mut store = Store::new();
    let axis = plans::plan_for(s, w, b, &mut store)?;
    give_list(out, phase, &axis, b, &store)
}

// A range by its first index and the one past its last, an empty one by 0 and 0.
fn put_range(out: &mut Writer, r: Range)
    requires { out.old.at < 2 ^ 32 }
    ensures { Puts out.old (four (empty_as_zero r).from ++ four (empty_as_zero r).past) 8 out.new }
{
    let told = if r.from < r.past {
        r
    } else {
        Range { from: 0, past: 0 }
    };
    numbers::put_pair(out, told.from, told.past);
}

// The ranges of the loops in a phase of block b.
fn write_ranges(out: &mut [u8], phase: u32, a: &Axis, b: u32, store: &Store) -> usize
    requires { Laid a.now store.now × (b < a.now.blocks) }
    ensures { Put out.old 0 (encoded (joined (loops_in store.now) (λ k. (empty_as_zero (range_in phase a.now store.now b k)).from ∷ (empty_as_zero (range_in phase a.now store.now b k)).past ∷ []))) (8 * loops_in store.now) out.new result }
{
    let part = ranges::part_in(phase);
    let blk = a.block(b);
    let mut row = Writer::new(out);
    for k in 0..reader::loops_in(store) {
        let r = ranges::range_at(part, a, blk, b, k, store);
        put_range(&mut row, r);
    }
    row.count()
}

// The ranges of processor b in a phase, or 13.
fn give_ranges(
    out: &mut [u8],
    phase: u32,
    a: &Axis,
    b: u32,
    store: &Store,
) -> Result<usize, Refusal>
    requires { Laid a.now store.now × (b < a.now.blocks) }
    ensures { Gives (fitted (length out.old) (encoded (ranges_of phase b (planned_in a.now store.now)))) out.old out.new result }
{
    let pairs = reader::loops_in(store);
    if out.len() < PAIR * pairs {
        return Err(outputs::short());
    }
    Ok(write_ranges(out, phase, a, b, store))
}

// Of each loop the range that processor b runs in a phase: 0 is before the barrier, 1 past it.
pub fn ranges(s: &[u8], phase: u32, w: Settings, b: u32, out: &mut [u8]) -> Result<usize, Refusal>
    ensures { Gives (ranges_given phase s.now w b (length out.old)) out.old out.new result }
{
    let mut store = Store::new();
    let axis = plans::plan_for(s, w, b, &mut store)?;
    give_ranges(out, phase, &axis, b, &store)
}
