// The plan of a table: read through 9, its shifts and peels, found or given by hand (19, 20); and for a number of processors and a line's length,
// grounds 10, 17 and 11.
#![tactic(auto)]

ghost use Rattle.std.specs.Prelude.{◌≡◌, false, ◌<◌};
ghost use Rattle.reader.specs.Store.{table_in};
ghost use Rattle.reader.specs.Held.{Held};
ghost use Rattle.serial.specs.Serial.{table};
ghost use Rattle.grounds.specs.Accepted.{Valid};
ghost use Rattle.blocks.specs.Span.{table_span};
ghost use Rattle.plans.specs.Plans as plans;
ghost use Rattle.refusals.specs.Answers.{accepted, after, result_of};
ghost use Rattle.plans.specs.Plans.{bad_processors, bad_number, bad_line, amounts_for, fits, fitting, planned, planned_for};
ghost use Rattle.plans.specs.Code.{Offered, Gives, Plans};
ghost use Rattle.plans.specs.Checking.{plan_threshold};

use amounts::Amounts;
use blocks::{Axis, Span};
use records::Store;
use refusals::{Ground, Refusal};

const MOST_PROCESSORS: u32 = 64;

const LONGEST_LINE: u32 = 64;

// What settles the lists beside the table: the count of processors, how many indices a line has, and a plan by hand, if one is given: how many
// bytes it has, and the bytes. The exported functions take it as it stands.
#[repr(C)]
#[derive(Clone, Copy)]
pub struct Settings {
    pub processors: u32,
    pub line: u32,
    pub given: u32,
    pub size: u32,
    pub plan: [u8; 128],
}

// Whether a number is outside 1 to the most.
fn outside(most: u32, n: u32) -> bool
    ensures { result ≡ plans.outside most n }
{
    !(1..=most).contains(&n)
}

// Ground 10: P outside 1 to 64.
fn bad_processors(w: Settings) -> bool
    ensures { result ≡ bad_processors w }
{
    outside(MOST_PROCESSORS, w.processors)
}

// Ground 10 where a processor is named: it must be below P.
fn bad_number(w: Settings, processor: u32) -> bool
    ensures { result ≡ bad_number w processor }
{
    bad_processors(w) || w.processors <= processor
}

// Ground 17: W outside 1 to 64.
fn bad_line(w: Settings) -> bool
    ensures { result ≡ bad_line w }
{
    outside(LONGEST_LINE, w.line)
}

// The indices that the loops run over: the least first, and how many up to the greatest last.
fn span_of(store: &Store) -> Span
    requires { Held store.now × Valid (table_in store.now) }
    ensures { result ≡ table_span (table_in store.now) }
{
    let mut low = reader::first_at(store, 0);
    let mut high: u32 = 0;
    for k in 0..reader::loops_in(store) {
        low = low.min(reader::first_at(store, k));
        high = high.max(reader::last_at(store, k));
    }
    Span {
        first: low,
        count: (high + 1).saturating_sub(low),
    }
}

// The plan by hand, if one is given, or what it is refused with. Where none is given, the numbers are not asked for.
fn given(w: Settings, store: &Store) -> Result<Option<Amounts>, Refusal>
    requires { Held store.now }
    ensures { Gives w (table_in store.now) result }
{
    if w.given == 0 {
        return Ok(None);
    }
    let amounts = legality::by_hand(&w.plan, w.size, store)?;
    Ok(Some(amounts))
}

// The shifts and peels of the plan: those by hand, where they are given, and else those that are found.
fn chosen(hand: Option<Amounts>, store: &Store) -> Amounts
    requires { Held store.now }
    ensures { (w : Settings) → Offered w (table_in store.now) hand → amounts_for w (table_in store.now) ≡ accepted result }
{
    match hand {
        Some(amounts) => amounts,
        None => amounts::amounts_of(store),
    }
}

// The plan of the table in a store, or 11.
fn plan_read(w: Settings, hand: Option<Amounts>, store: &Store) -> Result<Axis, Refusal>
    requires { Held store.now × Valid (table_in store.now) × (bad_line w ≡ false) × Offered w (table_in store.now) hand }
    ensures { Plans (after (amounts_for w (table_in store.now)) (fits w (table_in store.now))) result store.now }
{
    let found = chosen(hand, store);
    let span = span_of(store);
    let threshold = amounts::threshold_of(found) as u32;
    if blocks::short(span.count, w.line, w.processors, threshold) {
        return Err(Ground::Short.met(0));
    }
    let Amounts { shifts, peels } = found;
    Ok(Axis {
        first: span.first,
        count: span.count,
        line: w.line,
        blocks: w.processors,
        shifts,
        peels,
    })
}

// The plan of a table for what settles the lists, if the processors are not wrong; the store is lent.
fn plan_unless(s: &[u8], wrong: bool, w: Settings, store: &mut Store) -> Result<Axis, Refusal>
    ensures { Plans (fitting wrong w (table s.now)) result store.new }
{
    serial::read_through(s, store)?;
    let hand = given(w, store)?;
    if wrong {
        return Err(Ground::Processors.met(0));
    }
    if bad_line(w) {
        return Err(Ground::Line.met(0));
    }
    plan_read(w, hand, store)
}

// The plan of a table for what settles the lists; the store is lent.
pub fn plan_table(s: &[u8], w: Settings, store: &mut Store) -> Result<Axis, Refusal>
    ensures { Plans (planned s.now w) result store.new }
{
    let wrong = bad_processors(w);
    plan_unless(s, wrong, w, store)
}

// The same for a call that names a processor.
pub fn plan_for(s: &[u8], w: Settings, processor: u32, store: &mut Store) -> Result<Axis, Refusal>
    ensures { Plans (planned_for s.now w processor) result store.new }
{
    let wrong = bad_number(w, processor);
    plan_unless(s, wrong, w, store)
}

// Whether a plan is accepted, the one by hand or the table's own: its threshold, or what it is refused with.
pub fn check_plan(s: &[u8], w: Settings) -> Result<usize, Refusal>
    ensures { result ≡ result_of (λ q. plan_threshold q.plan) (planned s.now w) }
{
    let mut store = Store::new();
    let Axis { shifts, peels, .. } = plan_table(s, w, &mut store)?;
    Ok(amounts::threshold_of(Amounts { shifts, peels }))
}
