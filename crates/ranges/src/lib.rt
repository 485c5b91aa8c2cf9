// The ranges of a plan's loops in a block, kept for a phase, and the lists that they give: how long, and their n-th iteration.
#![tactic(auto)]

ghost use Rattle.std.specs.Prelude.{◌≡◌, ℕ, ◌+◌, ◌≤◌, ◌<◌, ◌^◌, length, get_or, set};
ghost use Rattle.model.specs.Table.{iteration};
ghost use Rattle.reader.specs.Store.{last_at, loops_in, table_in};
ghost use Rattle.blocks.specs.Sums.{column};
ghost use Rattle.lists.specs.Fusion.{fusion_in, work};
ghost use Rattle.plans.specs.Code.{Laid};
ghost use Rattle.ranges.specs.Empty.{Empty};
ghost use Rattle.ranges.specs.Code.{part_in, part_at, range_of, Measures, list_of, RangesKept};

mod phase_ranges;

use blocks::{Axis, Part, Range};
use model::Iteration;
pub use phase_ranges::PhaseRanges;
use records::Store;

// How many phases there are.
pub const PHASES: u32 = 2;

// How many iterations a processor's two lists have.
#[derive(Clone, Copy)]
pub struct Lengths {
    pub fused: u32,
    pub peeled: u32,
}

// Phase 0 runs the fused parts, phase 1 the peeled ones.
pub fn part_in(phase: u32) -> Part
    ensures { result ≡ part_in phase }
{
    if phase == 0 {
        Part::Fused
    } else {
        Part::Peeled
    }
}

// The part of loop k that block b has, whose indices are `blk`.
pub fn range_at(part: Part, a: &Axis, blk: Range, b: u32, k: usize, store: &Store) -> Range
    requires { (k < 16) × (b < a.now.blocks) × (last_at store.now k < 2 ^ 31) × (blk.from + column a.now.peels k < 2 ^ 32) × (blk.past + column a.now.peels k < 2 ^ 32) }
    ensures { result ≡ part_at part a.now store.now blk b k }
{
    let own = Range {
        from: reader::first_at(store, k),
        past: reader::last_at(store, k) + 1,
    };
    a.part(part, own, blk, b, k)
}

impl PhaseRanges {
    // With no range in it.
    pub fn new() -> Self
        ensures { Empty result }
    {
        PhaseRanges {
            froms: [0; 16],
            pasts: [0; 16],
            shifts: [0; 16],
        }
    }

    // The range and the shift of loop k put in their places.
    fn put(&mut self, k: usize, r: Range, shift: u32)
        requires { k < 16 }
        ensures { (self.new.froms ≡ set self.old.froms k r.from) × (self.new.pasts ≡ set self.old.pasts k r.past) × (self.new.shifts ≡ set self.old.shifts k shift) }
    {
        self.froms[k] = r.from;
        self.pasts[k] = r.past;
        self.shifts[k] = shift;
    }
}

// How many iterations the fused and the peeled list have in block b.
pub fn lengths_of(a: &Axis, b: u32, store: &Store) -> Lengths
    requires { Laid a.now store.now × (b < a.now.blocks) }
    ensures fused_bound { (result.fused ≤ 1052656) × (result.peeled ≤ 1052656) }
    ensures measures { Measures a.now store.now b result }
{
    let blk = a.block(b);
    let mut fused = 0;
    let mut peeled = 0;
    for k in 0..reader::loops_in(store) {
        let f = range_at(Part::Fused, a, blk, b, k, store);
        let p = range_at(Part::Peeled, a, blk, b, k, store);
        fused += f.length();
        peeled += p.length();
    }
    Lengths { fused, peeled }
}

// The ranges of a phase in block b, kept; answers how many iterations the list has that they give.
pub fn put_list(phase: u32, a: &Axis, b: u32, store: &Store, ranges: &mut PhaseRanges) -> usize
    requires { Laid a.now store.now × (b < a.now.blocks) }
    ensures value { (result ≡ length (work (table_in store.now) (fusion_in a.now) phase b)) × (result ≤ 1052656) }
    ensures ranges_kept { RangesKept ranges.new (loops_in store.now) (range_of phase a.now store.now b) (column a.now.shifts) }
{
    let blk = a.block(b);
    let part = part_in(phase);
    let mut sum = 0;
    for k in 0..reader::loops_in(store) {
        let r = range_at(part, a, blk, b, k, store);
        ranges.put(k, r, a.shifts[k]);
        sum += r.length() as usize;
    }
    sum
}

// The n-th iteration of the list that the first loops' kept ranges give in a phase.
pub fn nth_of(phase: u32, loops: usize, ranges: &PhaseRanges, n: usize) -> Iteration
    requires { (loops ≤ 16) × (n < length (list_of ranges.now loops phase)) }
    ensures { result ≡ get_or (list_of ranges.now loops phase) n (iteration 0 0) }
{
    let froms = &ranges.froms[..loops];
    let pasts = &ranges.pasts[..loops];
    match part_in(phase) {
        Part::Fused => positions::fused_nth(froms, pasts, &ranges.shifts[..loops], n),
        Part::Peeled => positions::peeled_nth(froms, pasts, n),
    }
}
