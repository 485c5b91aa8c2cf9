// Joins two loop tables: left's arrays, left's loops, right's loops and one end.
#![tactic(auto)]

ghost use Rattle.std.specs.Prelude.{◌≡◌, ◌*◌, ◌≤◌, ◌<◌, length};
ghost use Rattle.outputs.specs.Given.{fitted};
ghost use Rattle.outputs.specs.Gives.{Gives};
ghost use Rattle.joins.specs.Joining.{alike, joining};
ghost use Rattle.joins.specs.Copied.{bytes};
ghost use Rattle.reader.specs.Store.{table_in};
ghost use Rattle.reader.specs.Held.{Held};

use records::Store;
use refusals::{Ground, Refusal};

const MOST_LOOPS: usize = 16;

// Whether the arrays of the one are as many, and as long, as those of the other.
#[tactic(auto, using(crate::proofs::Walks::pointwise_alike))]
fn same_lengths(ours: &Store, theirs: &Store) -> bool
    requires { Held ours.now × Held theirs.now }
    ensures { result ≡ alike (table_in ours.now).lengths (table_in theirs.now).lengths }
{
    let n = reader::arrays_in(ours);
    n == reader::arrays_in(theirs) && ours.lengths[..n] == theirs.lengths[..n]
}

// Writes left without its end, and right without its arrays; or 13, with nothing written.
fn write(left: &[u8], right: &[u8], arrays: usize, out: &mut [u8]) -> Result<usize, Refusal>
    requires { (0 < length left.now) × (arrays ≤ 16) × (5 * arrays ≤ length right.now) }
    ensures { Gives (fitted (length out.old) (bytes left.now right.now arrays)) out.old out.new result }
{
    let kept = &left[..left.len() - 1];
    let added = &right[5 * arrays..];
    let count = kept.len() + added.len();
    if out.len() < count {
        return Err(outputs::short());
    }
    out[..kept.len()].copy_from_slice(kept);
    out[kept.len()..count].copy_from_slice(added);
    Ok(count)
}

// Joins two tables into the lent bytes, or refuses and leaves them as found.
pub fn join(left: &[u8], right: &[u8], out: &mut [u8]) -> Result<usize, Refusal>
    ensures { Gives (joining left.now right.now (length out.old)) out.old out.new result }
{
    let mut ours = Store::new();
    serial::read_through(left, &mut ours)?;
    let mut theirs = Store::new();
    serial::read_through(right, &mut theirs)?;
    if !same_lengths(&ours, &theirs) {
        return Err(Ground::Unlike.met(0));
    }
    let total = reader::loops_in(&ours) + reader::loops_in(&theirs);
    if MOST_LOOPS < total {
        return Err(Ground::Crowd.met(0));
    }
    write(left, right, reader::arrays_in(&ours), out)
}
