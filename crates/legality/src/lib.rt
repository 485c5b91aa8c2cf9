// A plan by hand: its shifts and peels are read from bytes, and held to what a plan may be (19) and to every dependence of the table (20).
#![tactic(auto)]

ghost use Rattle.std.specs.Prelude.{◌≡◌, true, ◌≢◌, ◌+◌, ◌*◌, ◌<◌, ◌≤◌, length};
ghost use Rattle.model.specs.Table.{count};
ghost use Rattle.model.specs.References.{touch};
ghost use Rattle.reader.specs.Store.{start_at, table_in};
ghost use Rattle.reader.specs.Held.{Held};
ghost use Rattle.reader.specs.Rows.{LastDestination};
ghost use Rattle.chains.specs.Unmet.{least_from};
ghost use Rattle.refusals.specs.Answers.{result_of};
ghost use Rattle.amounts.specs.Walked.{ReferenceFits};
ghost use Rattle.legality.specs.Written.{amounts_in};
ghost use Rattle.legality.specs.ByHand.{too_large, judged as judged_in, by_hand};
ghost use Rattle.legality.specs.Code.{Near, missing, lacking, between, Storing, Lasts, with_row, with_loop, destination_row, destinations, unmet_in, least_unmet_in, loop_of, pair_of};

use amounts::Amounts;
use model::Reference;
use records::Store;
use refusals::{Ground, Refusal};

// No shift and no peel of a plan by hand is above it.
const MOST: u32 = 10000;

// The shifts and peels of `loops` loops, where a loop has `stride` numbers: of these its shift has the number `first`, and its peel the next.
pub fn read_amounts(bytes: &[u8], stride: usize, first: usize, loops: usize) -> Amounts
    requires { (loops ≤ 16) × (first + 2 ≤ stride) × (stride ≤ 4) × (4 * (stride * loops) ≤ length bytes.now) }
    ensures { result ≡ amounts_in stride first loops bytes.now }
{
    let mut shifts = [0u32; 16];
    let mut peels = [0u32; 16];
    for k in 0..loops {
        shifts[k] = decoding::four_at(bytes, 4 * (stride * k + first));
        peels[k] = decoding::four_at(bytes, 4 * (stride * k + first + 1));
    }
    Amounts { shifts, peels }
}

// Whether some shift or peel is above the most.
fn too_large(a: &Amounts) -> bool
    ensures { result ≡ too_large a.now }
{
    a.shifts.iter().any(|x| MOST < *x) || a.peels.iter().any(|x| MOST < *x)
}

// Whether the numbers would not meet a dependence of x, of the earlier loop, and y.
fn misses(a: &Amounts, x: Reference, y: Reference) -> bool
    requires { Near x × Near y }
    ensures { result ≡ missing a.now x y }
{
    let j = x.number;
    let k = y.number;
    (a.shifts[k] as usize) < a.shifts[j] as usize + y.offset.saturating_sub(x.offset)
        || (a.peels[k] as usize) < a.peels[j] as usize + x.offset.saturating_sub(y.offset)
}

// Whether x, of the earlier loop, and y, to one array and one of them storing, make a dependence that the numbers don't meet.
fn lacks(store: &Store, a: &Amounts, x: Reference, y: Reference) -> bool
    requires held { Held store.now }
    requires reference_fits { ReferenceFits (table_in store.now) x × ReferenceFits (table_in store.now) y × (x.number < y.number) × (touch x y ≡ true) }
    ensures { result ≡ lacking (table_in store.now) a.now x y }
{
    misses(a, x, y) && amounts::meet(store, x, y)
}

// The same of x and y of two loops, whichever is the earlier.
fn lacks_between(store: &Store, a: &Amounts, x: Reference, y: Reference) -> bool
    requires held { Held store.now }
    requires reference_fits { ReferenceFits (table_in store.now) x × ReferenceFits (table_in store.now) y × (x.number ≢ y.number) × (touch x y ≡ true) }
    ensures { result ≡ between (table_in store.now) a.now x y }
{
    if x.number < y.number {
        lacks(store, a, x, y)
    } else {
        lacks(store, a, y, x)
    }
}

// The same of x, a destination, and row r of loop k: only a reference to x's array can make a dependence with it.
#[tactic(auto, using(amounts::proofs::Laws::row_bounds))]
fn lacks_row(store: &Store, a: &Amounts, x: Reference, k: usize, r: usize) -> bool
    requires held { Held store.now }
    requires storing { Storing (table_in store.now) x k × (r < start_at store.now (k + 1)) }
    ensures { result ≡ with_row store.now a.now x k r }
{
    if reader::array_at(store, r) as usize != x.array {
        return false;
    }
    reader::is_reference(store, r) && lacks_between(store, a, x, reader::reference_at(store, k, r))
}

// The same of x, a destination, and any reference of loop k, which is another loop.
#[tactic(auto, using(amounts::proofs::Laws::row_bounds))]
fn lacks_loop(store: &Store, a: &Amounts, x: Reference, k: usize) -> bool
    requires { Held store.now × Storing (table_in store.now) x k }
    ensures { result ≡ with_loop (table_in store.now) a.now x k }
{
    for r in reader::start_at(store, k)..reader::start_at(store, k + 1) {
        if lacks_row(store, a, x, k, r) {
            return true;
        }
    }
    false
}

// The same of row r of loop j, if it is a destination's, and any reference of loop k, which is another loop.
#[tactic(auto, using(amounts::proofs::Laws::row_bounds))]
fn lacks_destination(store: &Store, a: &Amounts, j: usize, r: usize, k: usize) -> bool
    requires held { Held store.now }
    requires j_bound { (j < count (table_in store.now)) × (r < start_at store.now (j + 1)) × (k < count (table_in store.now)) × (j ≢ k) }
    ensures { result ≡ destination_row store.now a.now j r k }
{
    reader::is_destination(store, r) && lacks_loop(store, a, reader::reference_at(store, j, r), k)
}

// The same of any destination of loop j, the last of which stands in row `last`, and any reference of loop k, which is another loop. In a loop of
// one statement the first row is the last one, too.
#[tactic(auto, using(amounts::proofs::Laws::row_bounds))]
fn lacks_destinations(store: &Store, a: &Amounts, j: usize, last: usize, k: usize) -> bool
    requires held { Held store.now }
    requires j_bound { (j < count (table_in store.now)) × LastDestination store.now j last × (k < count (table_in store.now)) × (j ≢ k) }
    ensures { result ≡ destinations (table_in store.now) a.now j k }
{
    for r in reader::start_at(store, j)..=last {
        if lacks_destination(store, a, j, r, k) {
            return true;
        }
    }
    false
}

// Whether some dependence from loop j to loop k is not met. One of its references is a destination.
#[tactic(auto, using(amounts::proofs::Laws::row_bounds))]
fn unmet_pair(store: &Store, a: &Amounts, lasts: &[u32; 16], j: usize, k: usize) -> bool
    requires held { Held store.now × (j < k) × (k < count (table_in store.now)) }
    requires lasts { Lasts store.now lasts.now }
    ensures { result ≡ unmet_in (table_in store.now) a.now j k }
{
    lacks_destinations(store, a, j, lasts[j] as usize, k)
        || lacks_destinations(store, a, k, lasts[k] as usize, j)
}

// The lowest loop to which some dependence from loop j is not met.
#[tactic(auto, using(amounts::proofs::Laws::row_bounds))]
fn lowest_later(store: &Store, a: &Amounts, lasts: &[u32; 16], j: usize) -> Option<usize>
    requires held { Held store.now × (j < count (table_in store.now)) }
    requires lasts { Lasts store.now lasts.now }
    ensures { result ≡ loop_of (least_from 16 0 (unmet_in (table_in store.now) a.now j)) }
{
    for k in j + 1..reader::loops_in(store) {
        if unmet_pair(store, a, lasts, j, k) {
            return Some(k);
        }
    }
    None
}

// For each loop the row of its last destination.
fn last_destinations(store: &Store) -> [u32; 16]
    requires { Held store.now }
    ensures { Lasts store.now result }
{
    let mut lasts = [0u32; 16];
    for k in 0..reader::loops_in(store) {
        lasts[k] = reader::last_destination(store, k) as u32;
    }
    lasts
}

// The first pair of loops with a dependence that is not met: the lowest earlier loop, and with it the lowest later one.
fn least_unmet(store: &Store, a: &Amounts) -> Option<(usize, usize)>
    requires { Held store.now }
    ensures { result ≡ pair_of (least_unmet_in (table_in store.now) a.now) }
{
    let lasts = last_destinations(store);
    for j in 0..reader::loops_in(store) {
        if let Some(k) = lowest_later(store, a, &lasts, j) {
            return Some((j, k));
        }
    }
    None
}

// What the numbers are refused with: 19 where one is too large, then 20.
fn judged(a: &Amounts, store: &Store) -> Result<(), Refusal>
    requires { Held store.now }
    ensures { result ≡ result_of (λ _. tt) (judged_in (table_in store.now) a.now) }
{
    if too_large(a) {
        return Err(Ground::Plan.met(0));
    }
    match least_unmet(store, a) {
        Some((j, k)) => Err(Ground::Unmet.naming(j, k, 0)),
        None => Ok(()),
    }
}

// The plan by hand of the first `used` of the bytes, for the table in the store.
pub fn by_hand(bytes: &[u8], used: u32, store: &Store) -> Result<Amounts, Refusal>
    requires { Held store.now × (128 ≤ length bytes.now) }
    ensures { result ≡ result_of (λ a. a) (by_hand (table_in store.now) used bytes.now) }
{
    let loops = reader::loops_in(store);
    if used as usize != 8 * loops {
        return Err(Ground::Plan.met(0));
    }
    let a = read_amounts(bytes, 2, 0, loops);
    judged(&a, store)?;
    Ok(a)
}
