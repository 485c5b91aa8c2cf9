// The lists of one processor: how long they are, and their n-th iteration, found without walking the list.
#![tactic(auto)]

ghost use Rattle.std.specs.Prelude.{◌≡◌, ℕ, ◌+◌, ◌-◌, ◌^◌, ◌≤◌, ◌<◌, length, get_or, IfSome};
ghost use Rattle.model.specs.Table.{iteration};
ghost use Rattle.lists.specs.Lists.{loop_at, sum_at, fused_columns, peeled_columns};
ghost use Rattle.lists.specs.Below.{clip};
ghost use Rattle.positions.specs.Search.{Aligned};
ghost use Rattle.positions.specs.Lines.{Extended, OnLine};
ghost use Rattle.positions.specs.Code.{loops_in, range_in, shift_in, weighted_in, below_in, bound_in, BracketIn, LocatedIn, LinearIn};

mod list;

use blocks::Range;
pub use list::{Columns, Weighted};
use model::Iteration;

// Every sum of an index and a shift is below it.
const SUMS: usize = 1 << 33;

// No list has as many iterations.
const COUNTS: usize = 1 << 53;

// A sum, and how many iterations of that sum come before the one that is sought.
#[derive(Clone, Copy)]
pub struct Position {
    pub sum: usize,
    pub before: usize,
}

// A search: the sums from low up to high have the n-th iteration, `under` have a sum below low.
#[derive(Clone, Copy)]
pub struct Search {
    pub low: usize,
    pub high: usize,
    pub under: usize,
    pub guess: Option<usize>,
}

// From the sum `from` up to `past`, past not among them, every loop that has iterations is at work. So the count is a straight line
// there: slope * t - offset iterations have a sum below t.
#[derive(Clone, Copy)]
pub struct Line {
    pub from: usize,
    pub past: usize,
    pub slope: usize,
    pub offset: usize,
}

// How many indices of a range have a sum with the shift below t.
fn clipped(r: Range, shift: u32, t: usize) -> usize
    ensures { (result ≡ clip r shift t) × (result < 2 ^ 32) }
{
    t.saturating_sub(shift as usize)
        .min(r.past as usize)
        .saturating_sub(r.from as usize)
}

// 1 where a loop has an iteration at the sum t, else 0.
fn held(r: Range, shift: u32, t: usize) -> usize
    ensures { (k : ℕ) → result ≡ length (loop_at r shift t k) }
{
    let from = r.from as usize + shift as usize;
    let past = r.past as usize + shift as usize;
    if from <= t && t < past { 1 } else { 0 }
}

// The sum that the n-th would have if every sum from t on had as many iterations as t: b have a sum below t, a below t + 1.
fn interpolated(t: usize, n: usize, b: usize, a: usize) -> Option<usize>
    requires { (t < 2 ^ 33) × (b < 2 ^ 53) }
{
    if a <= b || n >= COUNTS {
        return None;
    }
    if b <= n {
        Some(t + (n - b) / (a - b))
    } else {
        t.checked_sub((b - n - 1) / (a - b) + 1)
    }
}

// The guess, if it lies between low and high; else the middle.
fn probe(low: usize, high: usize, guess: Option<usize>) -> usize
    requires { low + 1 < high }
    ensures { (low < result) × (result < high) }
{
    match guess {
        Some(sum) if low < sum && sum < high => sum,
        _ => low + (high - low) / 2,
    }
}

impl Line {
    // The line with one loop more. A loop with no iteration is at work nowhere, and left out.
    fn with(self, r: Range, shift: u32, weight: u32) -> Line
        requires { (weight ≤ 65536) × (self.slope ≤ 2 ^ 20) × (self.offset ≤ 2 ^ 53) }
        ensures { Extended self r shift weight result }
    {
        if r.past <= r.from {
            return self;
        }
        let start = r.from as usize + shift as usize;
        let weight = weight as usize;
        Line {
            from: self.from.max(start),
            past: self.past.min(r.past as usize + shift as usize),
            slope: self.slope + weight,
            offset: self.offset + weight * start,
        }
    }

    // Where the n-th iteration would stand if the line had no ends: nowhere, if it does not rise, or no list is as long as n.
    fn at(self, n: usize) -> Option<Position>
        requires { self.offset ≤ 2 ^ 53 }
        ensures { IfSome result (λ p. OnLine self n p) }
    {
        if self.slope == 0 || n >= COUNTS {
            return None;
        }
        let whole = n + self.offset;
        Some(Position {
            sum: whole / self.slope,
            before: whole % self.slope,
        })
    }
}

impl Columns<'_> {
    // The range of loop k.
    fn range(&self, k: usize) -> Range
        requires { k < loops_in self.now }
        ensures { result ≡ range_in self.now k }
    {
        Range {
            from: self.froms[k],
            past: self.pasts[k],
        }
    }

    // A bound of all sums.
    pub fn sum_bound(&self) -> usize
        ensures { (result ≡ bound_in self.now) × (result < 2 ^ 33) }
    {
        let mut most: usize = 0;
        for k in 0..self.froms.len() {
            most = most.max(self.pasts[k] as usize + self.shifts[k] as usize);
        }
        most
    }

    // The n-th iteration of the sum t; (0, 0) past the last.
    pub fn nth_at_sum(&self, t: usize, n: usize) -> Iteration
        ensures { result ≡ get_or (sum_at (loops_in self.now) (range_in self.now) (shift_in self.now) t) n (iteration 0 0) }
    {
        let mut left = n;
        for k in 0..self.froms.len() {
            let shift = self.shifts[k];
            let h = held(self.range(k), shift, t);
            if left < h {
                return Iteration {
                    number: k,
                    index: t - shift as usize,
                };
            }
            left -= h;
        }
        Iteration {
            number: 0,
            index: 0,
        }
    }
}

impl Weighted<'_, '_> {
    // What loop k adds to the count below t.
    #[tactic(auto, unfolding(lists::specs::Below::weighted))]
    fn weighted_at(&self, t: usize, k: usize) -> usize
        requires { k < loops_in self.now.columns }
        ensures { (result ≡ weighted_in self.now t k) × (result ≤ 2 ^ 48) }
    {
        self.weights[k] as usize * clipped(self.columns.range(k), self.columns.shifts[k], t)
    }

    // How many iterations have a sum below t, each counted with its loop's weight.
    pub fn below_sum(&self, t: usize) -> usize
        ensures { (result ≡ below_in self.now t) × (result ≤ 2 ^ 52) }
    {
        let mut sum = 0;
        for k in 0..self.columns.froms.len() {
            sum += self.weighted_at(t, k);
        }
        sum
    }

    // One turn of the search. Whatever the guess, the turn is right; with a good one the search is short.
    fn narrow(&self, n: usize, s: Search) -> Search
        requires { BracketIn self.now n s × (s.low + 1 < s.high) }
        ensures { BracketIn self.now n result × (result.high - result.low < s.high - s.low) × (result.high ≤ s.high) }
    {
        let mid = probe(s.low, s.high, s.guess);
        let b = self.below_sum(mid);
        let a = self.below_sum(mid + 1);
        let guess = interpolated(mid, n, b, a);
        if n < b {
            Search {
                high: mid,
                guess,
                ..s
            }
        } else if n < a {
            Search {
                low: mid,
                high: mid + 1,
                under: b,
                guess,
            }
        } else {
            Search {
                low: mid,
                under: b,
                guess,
                ..s
            }
        }
    }

    // Where the n-th iteration stands, counted by weights, if `most` is a bound of the sums. The search begins at the guess.
    fn find(&self, most: usize, guess: Option<usize>, n: usize) -> Position
        requires { (n < below_in self.now most) × (most < 2 ^ 33) }
        ensures { LocatedIn self.now most n result }
    {
        let mut s = Search {
            low: 0,
            high: most,
            under: 0,
            guess,
        };
        while s.low + 1 < s.high {
            s = self.narrow(n, s);
        }
        Position {
            sum: s.low,
            before: n - s.under,
        }
    }

    // The line of all loops. It begins with every sum there can be; each loop leaves those that it has, and adds its weight to the slope.
    fn line(&self) -> Line
        ensures { LinearIn self.now result }
    {
        let mut l = Line {
            from: 0,
            past: SUMS,
            slope: 0,
            offset: 0,
        };
        for k in 0..self.columns.froms.len() {
            l = l.with(
                self.columns.range(k),
                self.columns.shifts[k],
                self.weights[k],
            );
        }
        l
    }

    // Where the n-th iteration stands, counted by weights. Most stand on the line, where a division finds them; the others, at sums
    // where some loop has not begun or is done, are searched for.
    pub fn position_of(&self, n: usize) -> Position
        requires { n < below_in self.now (bound_in self.now.columns) }
        ensures { LocatedIn self.now (bound_in self.now.columns) n result }
    {
        let line = self.line();
        let at = line.at(n);
        if let Some(p) = at
            && line.from <= p.sum
            && p.sum < line.past
        {
            return p;
        }
        self.find(self.columns.sum_bound(), at.map(|p| p.sum), n)
    }
}

// The n-th iteration of the fused list.
pub fn fused_nth(froms: &[u32], pasts: &[u32], shifts: &[u32], n: usize) -> Iteration
    requires froms_len_bound { (length froms.now ≤ 16) × Aligned froms.now pasts.now shifts.now }
    requires n_in_bounds { n < length (fused_columns froms.now pasts.now shifts.now) }
    ensures { result ≡ get_or (fused_columns froms.now pasts.now shifts.now) n (iteration 0 0) }
{
    let loops = Weighted {
        columns: Columns {
            froms,
            pasts,
            shifts,
        },
        weights: &[1; 16],
    };
    let at = loops.position_of(n);
    loops.columns.nth_at_sum(at.sum, at.before)
}

// The n-th iteration of the peeled list; (0, 0) past the last.
pub fn peeled_nth(froms: &[u32], pasts: &[u32], n: usize) -> Iteration
    requires { length froms.now ≤ length pasts.now }
    ensures { result ≡ get_or (peeled_columns froms.now pasts.now) n (iteration 0 0) }
{
    let mut left = n;
    for k in 0..froms.len() {
        let r = Range {
            from: froms[k],
            past: pasts[k],
        };
        let h = r.length() as usize;
        if left < h {
            return Iteration {
                number: k,
                index: r.from as usize + left,
            };
        }
        left -= h;
    }
    Iteration {
        number: 0,
        index: 0,
    }
}
