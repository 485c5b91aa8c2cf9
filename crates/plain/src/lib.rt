// The plain run: the loops in table order, each from first to last, every iteration once. It knows nothing of a plan.
#![tactic(auto)]

ghost use Rattle.std.specs.Prelude.{◌≡◌, List, ℕ, suc, ◌-◌, ◌^◌, ◌≤◌, ◌<◌, length};
ghost use Rattle.order.specs.Sequences.{run_all};
ghost use Rattle.model.specs.Table.{count};
ghost use Rattle.model.specs.Bodies.{performed};
ghost use Rattle.model.specs.PlainRun.{upward, looped, plain_run};
ghost use Rattle.refusals.specs.Answers.{accepted, result_of};
ghost use Rattle.reader.specs.Store.{statements_from, table_in};
ghost use Rattle.reader.specs.Held.{Held};
ghost use Rattle.grounds.specs.Accepted.{Valid};
ghost use Rattle.bodies.specs.Workable.{Based};
ghost use Rattle.bodies.specs.Stopped.{Opens};
ghost use Rattle.iterations.specs.Memory.{element_total, remembered};
ghost use Rattle.iterations.specs.Runnable.{Runnable};
ghost use Rattle.plain.specs.Plain.{plain_answer, run_of, plain_memory};
ghost use Rattle.plain.specs.Running.{Running};

use bodies::Placed;
use records::Store;
use refusals::{Ground, Refusal};

// Iterations `first` to `last` of the statements in the rows from `from` up to `past`.
pub fn run_range(
    table: &Placed,
    from: usize,
    past: usize,
    first: usize,
    last: usize,
    memory: &mut [f64],
)
    requires past_bound { (past ≤ 576) × (last < 2 ^ 32) × Opens table.now.store.now from past }
    requires by_index { (i : ℕ) → first ≤ i → i ≤ last → Runnable table.now.bases.now i (length memory.old) (statements_from table.now.store.now from (past - from)) }
    ensures { (ns : List ℕ) → Based table.now.bases.now ns →
        memory.new ≡ upward (λ i. run_all (performed ns i) (statements_from table.now.store.now from (past - from))) first (suc last - first) memory.old }
{
    for i in first..=last {
        iterations::run_rows(table, from, past, i, memory);
    }
}

// One loop, from first to last.
fn run_loop(number: usize, table: &Placed, memory: &mut [f64])
    requires { Running table.now.store.now table.now.bases.now memory.old × (number < count (table_in table.now.store.now)) }
    ensures { memory.new ≡ looped (table_in table.now.store.now) number memory.old }
{
    let from = reader::start_at(table.store, number);
    let past = reader::start_at(table.store, number + 1);
    let first = reader::first_at(table.store, number) as usize;
    let last = reader::last_at(table.store, number) as usize;
    run_range(table, from, past, first, last, memory);
}

// All loops, in table order.
fn run_loops(table: &Placed, memory: &mut [f64])
    requires { Running table.now.store.now table.now.bases.now memory.old }
    ensures { memory.new ≡ plain_run (table_in table.now.store.now) memory.old }
{
    let loops = reader::loops_in(table.store);
    for k in 0..loops {
        run_loop(k, table, memory);
    }
}

// The table in this store, on a memory of its length; else 12.
fn run_table(store: &Store, memory: &mut [f64]) -> Result<(), Refusal>
    requires { Held store.now × Valid (table_in store.now) }
    ensures value { result ≡ result_of (λ _. tt) (remembered element_total (length memory.old) (accepted (table_in store.now))) }
    ensures memory_after { memory.new ≡ run_of (remembered element_total (length memory.old) (accepted (table_in store.now))) memory.old }
{
    let bases = iterations::bases_of(store);
    if memory.len() != bases.total() {
        return Err(Ground::Memory.met(0));
    }
    let table = Placed {
        store,
        bases: &bases.firsts,
    };
    run_loops(&table, memory);
    Ok(())
}

// A table's bytes and a memory: 1 to 9, then 12, and a refused run changes nothing.
pub fn plain_run(s: &[u8], memory: &mut [f64]) -> Result<(), Refusal>
    ensures value { result ≡ result_of (λ _. tt) (plain_answer s.now (length memory.old)) }
    ensures memory_after { memory.new ≡ plain_memory s.now memory.old }
{
    let mut store = Store::new();
    serial::read_through(s, &mut store)?;
    run_table(&store, memory)
}
