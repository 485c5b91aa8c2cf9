// A table's listing into lent bytes: all of it, or a refusal, which leaves them as found. The program `plan` prints the line of a refusal instead.
#![tactic(auto)]

ghost use Rattle.std.specs.Prelude.{◌≤◌, length};
ghost use Rattle.plans.specs.Plans.{settings};
ghost use Rattle.plans.specs.Code.{planned_in, Laid};
ghost use Rattle.outputs.specs.Given.{fitted};
ghost use Rattle.outputs.specs.Gives.{Gives};
ghost use Rattle.listing.specs.Listing.{refusal_line};
ghost use Rattle.printing.specs.Printing.{listing_of, listing_given, text, Prints};

use blocks::Axis;
use plans::Settings;
use records::Store;
use refusals::Refusal;

// The lines of a plan. The first call, with no bytes, tells how many are needed.
fn print_lines(out: &mut [u8], a: &Axis, store: &Store) -> Result<usize, Refusal>
    requires { Laid a.now store.now }
    ensures { Gives (fitted (length out.old) (listing_of (planned_in a.now store.now))) out.old out.new result }
{
    let w = sweeps::sweeps_of(store);
    let total = listing::write_listing(&mut [], a, store, w.before, w.after);
    if out.len() < total {
        return Err(outputs::short());
    }
    Ok(listing::write_listing(out, a, store, w.before, w.after))
}

// The listing of a table's plan.
pub fn print_listing(s: &[u8], w: Settings, out: &mut [u8]) -> Result<usize, Refusal>
    ensures { Gives (listing_given s.now w (length out.old)) out.old out.new result }
{
    let mut store = Store::new();
    let axis = plans::plan_table(s, w, &mut store)?;
    print_lines(out, &axis, &store)
}

// The line of a refusal. The first call, with no bytes, tells how many are needed.
fn print_refusal(out: &mut [u8], r: Refusal) -> Result<usize, Refusal>
    ensures gives { Gives (fitted (length out.old) (refusal_line r.ground r.place)) out.old out.new result }
    ensures place_len_bound { length (refusal_line r.ground r.place) ≤ 100 }
{
    let ground = r.ground as usize;
    let size = listing::write_refusal(&mut [], ground, r.place);
    if out.len() < size {
        return Err(outputs::short());
    }
    Ok(listing::write_refusal(out, ground, r.place))
}

// The listing, or the line of a refusal in its stead.
fn print_text(s: &[u8], w: Settings, out: &mut [u8]) -> Result<usize, Refusal>
    ensures { Prints (text s.now w) out.old out.new result }
{
    let mut store = Store::new();
    match plans::plan_table(s, w, &mut store) {
        Ok(axis) => print_lines(out, &axis, &store),
        Err(r) => print_refusal(out, r),
    }
}

// What the program prints for a number of processors: lines have one index, and no plan is given by hand.
pub fn print_plan(s: &[u8], processors: u32, out: &mut [u8]) -> Result<usize, Refusal>
    ensures { Prints (text s.now (settings processors)) out.old out.new result }
{
    print_text(
        s,
        Settings {
            processors,
            line: 1,
            given: 0,
            size: 0,
            plan: [0u8; 128],
        },
        out,
    )
}
