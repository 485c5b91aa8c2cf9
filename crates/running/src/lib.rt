// The run in a caller's order: a call for each byte, then calls for the lowest-numbered processor that can step, each made by the step.
#![tactic(auto)]

ghost use Rattle.std.specs.Prelude.{◌≡◌, ℕ, List, length};
ghost use Rattle.model.specs.declared.Iteration.{Iteration};
ghost use Rattle.refusals.specs.Answers.{accepted};
ghost use Rattle.reader.specs.Store.{table_in};
ghost use Rattle.iterations.specs.Memory.{element_total};
ghost use Rattle.turns.specs.Turn.{Work};
ghost use Rattle.turns.specs.Row.{closing, memory_after};
ghost use Rattle.turns.specs.Reachable.{Reachable};
ghost use Rattle.plans.specs.Plans.{Settings, planned};
ghost use Rattle.plans.specs.Code.{Laid, planned_in};
ghost use Rattle.running.specs.Code.{Step, CallingIn, Ordered, Rowed};
ghost use Rattle.running.specs.Idle.{idling};
ghost use Rattle.running.specs.Runs.{Runs};

use barriers::{Barriers, NO_ENDS};
use blocks::Axis;
use layouts::{Lists, PROCESSORS};
use plans::Settings;
use ranges::PHASES;
use records::Store;
use refusals::{Ground, Refusal};
use stepping::Report;
use steps::{Counts, Layout};

// What the calls of an order leave: the counts, and how many of them were idle.
#[derive(Clone, Copy)]
struct Taken {
    counts: Counts,
    idle: usize,
}

// 1 for a call that waits, is finished or is refused.
fn idle_of(report: Report) -> usize
    ensures { result ≡ idling report }
{
    match report {
        Report::Performed { .. } => 0,
        _ => 1,
    }
}

// A step for each byte of the order, from counts of 0.
fn take_order(order: &[u8], layout: &Layout, memory: &mut [f64]) -> Taken
    requires { ((w : Work Iteration) × ((step : Step) × CallingIn w step layout.now)) × (length memory.old ≡ element_total (table_in layout.now.store.now)) }
    ensures { (w : Work Iteration) (step : Step) → CallingIn w step layout.now → Ordered w step layout.now.store.now order.now memory.old result.counts.done memory.new result.idle }
{
    let mut counts = Counts { done: [0u32; 64] };
    let mut idle: usize = 0;
    for &b in order {
        let r = counts.step_laid(layout, b as u32, b as usize, memory);
        counts = r.counts;
        idle += idle_of(r.report);
    }
    Taken { counts, idle }
}

// Steps of the lowest-numbered processor that can step, until there is none, and no more than `most`.
fn close(from: Counts, most: u32, layout: &Layout, memory: &mut [f64])
    requires { ((w : Work Iteration) × ((step : Step) × CallingIn w step layout.now × Reachable w from.done)) × (length memory.old ≡ element_total (table_in layout.now.store.now)) }
    ensures { (w : Work Iteration) (step : Step) → CallingIn w step layout.now → Reachable w from.done → memory.new ≡ memory_after step (closing step layout.now.barriers.now.processors most from.done memory.old) from.done memory.old }
{
    let mut counts = from;
    for _i in 0..most {
        let Some(b) = layout.barriers.lowest_ready(&counts.done) else {
            return;
        };
        counts = counts.step_laid(layout, b, b as usize, memory).counts;
    }
}

// The calls of the order, then those that use up the lists; answers how many were idle.
fn run_row(order: &[u8], layout: &Layout, memory: &mut [f64]) -> usize
    requires { ((w : Work Iteration) × ((step : Step) × CallingIn w step layout.now)) × (length memory.old ≡ element_total (table_in layout.now.store.now)) }
    ensures { (w : Work Iteration) (step : Step) → CallingIn w step layout.now → Rowed w step layout.now.barriers.now.processors order.now memory.old memory.new result }
{
    let taken = take_order(order, layout, memory);
    close(taken.counts, layout.barriers.listed(), layout, memory);
    taken.idle
}

// The run of an accepted plan: 12, or how many of its calls were idle.
fn run_planned(a: Axis, order: &[u8], store: &Store, memory: &mut [f64]) -> Result<usize, Refusal>
    requires { Laid a store.now }
    ensures { (s : List ℕ) (w : Settings) → planned s w ≡ accepted (planned_in a store.now) → Runs s w order.now memory.old result memory.new }
{
    let bases = iterations::bases_of(store);
    if memory.len() != bases.total() {
        return Err(Ground::Memory.met(0));
    }
    let mut ends = NO_ENDS;
    layouts::put_ends(a, store, &mut ends);
    let barriers = Barriers {
        ends: &ends,
        processors: a.blocks,
        phases: PHASES,
    };
    let mut lists = [Lists::new(); PROCESSORS];
    layouts::put_all_lists(a, store, &mut lists[..]);
    let layout = Layout {
        barriers: &barriers,
        lists: &lists[..],
        store,
        bases: &bases.firsts,
    };
    Ok(run_row(order, &layout, memory))
}

// The run of a table in a caller's order, whose bytes name processors: how many of its calls were idle, or the refusal.
pub fn run(s: &[u8], w: Settings, order: &[u8], memory: &mut [f64]) -> Result<usize, Refusal>
    ensures { Runs s.now w order.now memory.old result memory.new }
{
    let mut store = Store::new();
    let a = plans::plan_table(s, w, &mut store)?;
    run_planned(a, order, &store, memory)
}
