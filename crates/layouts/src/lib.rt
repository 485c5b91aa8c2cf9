// A plan laid out: for each processor where its phases end, and its lists.
#![tactic(auto)]

ghost use Rattle.std.specs.Prelude.{◌≡◌, ◌≤◌, ◌<◌, length};
ghost use Rattle.barriers.specs.Code.{Ended, EndsFit, Rows};
ghost use Rattle.plans.specs.Code.{Laid};
ghost use Rattle.ranges.specs.Empty.{Empty};
ghost use Rattle.layouts.specs.Layout.{work_in, ranges_of, Stands, Standing, with_ends};

use barriers::Ends;
use blocks::Axis;
use ranges::PhaseRanges;
use records::Store;

// The most processors that a plan has.
pub const PROCESSORS: usize = 64;

// The lists of a processor, by the ranges that give them.
#[derive(Clone, Copy)]
pub struct Lists {
    pub fused: PhaseRanges,
    pub peeled: PhaseRanges,
}

impl Lists {
    // With no range in them.
    pub fn new() -> Self
        ensures { Empty result.fused × Empty result.peeled }
    {
        Lists {
            fused: PhaseRanges::new(),
            peeled: PhaseRanges::new(),
        }
    }

    // The ranges of a phase.
    pub fn of(&self, phase: u32) -> &PhaseRanges
        ensures { result.now ≡ ranges_of self.now phase }
    {
        if phase == 0 {
            &self.fused
        } else {
            &self.peeled
        }
    }
}

// Where the phases of processor b end.
fn put_end(a: &Axis, b: u32, store: &Store, ends: &mut Ends)
    requires { Laid a.now store.now × (b < a.now.blocks) × Rows ends.old }
    ensures { ends.new ≡ with_ends a.now store.now b ends.old }
{
    let l = ranges::lengths_of(a, b, store);
    let own = b as usize;
    ends[0][own] = l.fused;
    ends[1][own] = l.fused + l.peeled;
}

// Where all phases end.
pub fn put_ends(a: Axis, store: &Store, ends: &mut Ends)
    requires { Laid a store.now × Rows ends.old × EndsFit ends.old }
    ensures { Ended (work_in a store.now) ends.new × Rows ends.new }
{
    for b in 0..a.blocks {
        put_end(&a, b, store, ends);
    }
}

// Processor b's lists.
pub fn put_lists(a: Axis, b: u32, store: &Store, lists: &mut Lists)
    requires { Laid a store.now × (b < a.blocks) }
    ensures { Stands a store.now lists.new b }
{
    ranges::put_list(0, &a, b, store, &mut lists.fused);
    ranges::put_list(1, &a, b, store, &mut lists.peeled);
}

// The lists of all processors.
pub fn put_all_lists(a: Axis, store: &Store, lists: &mut [Lists])
    requires { Laid a store.now × (64 ≤ length lists.old) }
    ensures { Standing a store.now lists.old lists.new a.blocks }
{
    for b in 0..a.blocks {
        put_lists(a, b, store, &mut lists[b as usize]);
    }
}
