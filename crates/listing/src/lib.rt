// The listing: the lines of a plan, or the single line of a refusal, into lent bytes. What has no room is left out, and the answer
// is the text's whole length, so a first call with no bytes tells how many are needed.
#![tactic(auto)]

ghost use Rattle.std.specs.Prelude.{◌+◌, ◌^◌, ◌≤◌, ◌<◌};
ghost use Rattle.reader.specs.Store.{loops_in, table_in};
ghost use Rattle.blocks.specs.Sums.{column};
ghost use Rattle.blocks.specs.Code.{block_in, Cuttable};
ghost use Rattle.lists.specs.Fusion.{fusion_in};
ghost use Rattle.text.specs.Lent.{Whole};
ghost use Rattle.text.specs.Puts.{Puts};
ghost use Rattle.plans.specs.Code.{Laid};
ghost use Rattle.ranges.specs.Code.{range_of};
ghost use Rattle.listing.specs.Listing.{loop_line, block_line, range_line, each, range_lines, phase_name, listing, refusal_line};

use blocks::{Axis, Range};
use records::Store;
use text::Writer;

// Block b, its first and its last index.
fn put_block(out: &mut Writer, a: &Axis, b: u32)
    requires { (out.old.at < 2 ^ 32) × (b < a.now.blocks) × Cuttable a.now }
    ensures { Puts out.old (block_line b (block_in a.now b)) 100 out.new }
{
    let r = a.block(b);
    let last = r.past.saturating_sub(1);
    out.put_line(b"block", &[b as usize, r.from as usize, last as usize]);
}

// Block b, loop k, the first and the last index of the range that the loop has in a phase; nothing if it is empty.
fn put_range(out: &mut Writer, phase: u32, b: u32, k: usize, r: Range)
    requires { out.old.at < 2 ^ 32 }
    ensures { Puts out.old (range_line (phase_name phase) b k r) 100 out.new }
{
    if r.past <= r.from {
        return;
    }
    let word: &[u8] = if phase == 0 { b"fused" } else { b"peeled" };
    let last = r.past.saturating_sub(1);
    out.put_line(word, &[b as usize, k, r.from as usize, last as usize]);
}

// The ranges of the loops in block b.
fn put_block_parts(out: &mut Writer, phase: u32, a: &Axis, b: u32, store: &Store)
    requires { (out.old.at < 2 ^ 31) × (b < a.now.blocks) × Laid a.now store.now }
    ensures { Puts out.old (each (loops_in store.now) (λ k. range_line (phase_name phase) b k (range_of phase a.now store.now b k))) 1600 out.new }
{
    let part = ranges::part_in(phase);
    let blk = a.block(b);
    for k in 0..reader::loops_in(store) {
        let r = ranges::range_at(part, a, blk, b, k, store);
        put_range(out, phase, b, k, r);
    }
}

// The ranges of a phase, by block and within it by loop.
fn put_parts(out: &mut Writer, phase: u32, a: &Axis, store: &Store)
    requires { (out.old.at < 2 ^ 30) × Laid a.now store.now }
    ensures { Puts out.old (range_lines (phase_name phase) a.now.blocks (loops_in store.now) (range_of phase a.now store.now)) 102400 out.new }
{
    for b in 0..a.blocks {
        put_block_parts(out, phase, a, b, store);
    }
}

// The loops, with their shifts and their peels.
fn put_loops(out: &mut Writer, a: &Axis, store: &Store)
    requires { (out.old.at < 2 ^ 30) × Laid a.now store.now }
    ensures { Puts out.old (each (loops_in store.now) (λ k. loop_line k (column a.now.shifts k) (column a.now.peels k))) 1600 out.new }
{
    for k in 0..reader::loops_in(store) {
        out.put_line(b"loop", &[k, a.shifts[k] as usize, a.peels[k] as usize]);
    }
}

// The blocks.
fn put_blocks(out: &mut Writer, a: &Axis)
    requires { (out.old.at < 2 ^ 30) × (a.now.blocks ≤ 64) × Cuttable a.now }
    ensures { Puts out.old (each a.now.blocks (λ b. block_line b (block_in a.now b))) 6400 out.new }
{
    for b in 0..a.blocks {
        put_block(out, a, b);
    }
}

// The listing of a plan, for the table in the store, and the two counts of sweeps.
pub fn write_listing(out: &mut [u8], axis: &Axis, store: &Store, before: u32, after: u32) -> usize
    requires { Laid axis.now store.now }
    ensures { Whole out.old (listing (table_in store.now) (fusion_in axis.now) before after) 212900 out.new result }
{
    let mut lines = Writer::new(out);
    put_loops(&mut lines, axis, store);
    put_blocks(&mut lines, axis);
    put_parts(&mut lines, 0, axis, store);
    put_parts(&mut lines, 1, axis, store);
    lines.put_line(b"sweeps", &[before as usize, after as usize]);
    lines.count()
}

// The line of a refusal.
pub fn write_refusal(out: &mut [u8], ground: usize, place: usize) -> usize
    ensures { Whole out.old (refusal_line ground place) 100 out.new result }
{
    let mut lines = Writer::new(out);
    lines.put_line(b"refused", &[ground, place]);
    lines.count()
}
