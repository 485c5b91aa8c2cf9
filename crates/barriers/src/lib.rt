// From the counts of iterations done and the numbers where each processor's phases end: which barriers are open, ground 15, the phase
// that a processor has come to, and who can step.
#![tactic(auto)]

ghost use Rattle.std.specs.Prelude.{◌≡◌, ◌≤◌, ◌<◌};
ghost use Rattle.turns.specs.Row.{lowest};
ghost use Rattle.barriers.specs.Code.{before_by, left_by, closed_by, phase_by, last_open_by, most_by, wrong_by, ready_by, listed_by, below, EndsFit};

// For each phase a row, and in it for each processor how many iterations it has up to the end of that phase.
pub type Ends = [[u32; 64]; 3];

// The rows before any iteration is counted.
pub const NO_ENDS: Ends = [[0u32; 64]; 3];

// Where the phases of so many processors end.
#[derive(Clone, Copy)]
pub struct Barriers<'a> {
    pub ends: &'a Ends,
    pub processors: u32,
    pub phases: u32,
    ghost sized: { (processors ≤ 64) × (0 < phases) × (phases ≤ 3) },
}

impl Barriers<'_> {
    // How many iterations processor b has in the phases before phase n.
    pub fn before(&self, n: u32, b: u32) -> u32
        requires { (n ≤ 3) × (b < 64) }
        ensures { result ≡ before_by self.now.ends.now n b }
    {
        if n == 0 {
            return 0;
        }
        self.ends[n as usize - 1][b as usize]
    }

    // The lowest-numbered processor with an iteration left in the phases before phase n.
    fn lowest_left(&self, counts: &[u32; 64], n: u32) -> Option<u32>
        requires { n ≤ 3 }
        ensures { result ≡ below self.now.processors (lowest self.now.processors (left_by self.now.ends.now counts.now n)) }
    {
        for b in 0..self.processors {
            if counts[b as usize] < self.before(n, b) {
                return Some(b);
            }
        }
        None
    }

    // Whether the barrier before a phase is closed: some list of an earlier phase is not used up. There is none before phase 0.
    pub fn is_closed(&self, counts: &[u32; 64], phase: u32) -> bool
        requires { phase ≤ 3 }
        ensures { result ≡ closed_by self.now.processors self.now.ends.now counts.now phase }
    {
        phase != 0 && self.lowest_left(counts, phase).is_some()
    }

    // The last phase that processor b has come to, with so many iterations done.
    pub fn phase_of(&self, b: u32, done: u32) -> u32
        requires { b < 64 }
        ensures is { result ≡ phase_by self.now.ends.now self.now.phases b done }
        ensures within { result < self.now.phases }
    {
        for n in (1..self.phases).rev() {
            if self.before(n, b) <= done {
                return n;
            }
        }
        0
    }

    // The last phase whose barrier is open.
    pub fn last_open(&self, counts: &[u32; 64]) -> u32
        ensures is { result ≡ last_open_by self.now.processors self.now.ends.now counts.now self.now.phases }
        ensures within { result < self.now.phases }
    {
        for n in (1..self.phases).rev() {
            if !self.is_closed(counts, n) {
                return n;
            }
        }
        0
    }

    // How many iterations processor b may have done, phase m being the last one whose barrier is open.
    fn most_of(&self, m: u32, b: u32) -> u32
        requires { (m < 3) × (b < 64) }
        ensures { result ≡ most_by self.now.processors self.now.ends.now m b }
    {
        if b < self.processors {
            self.before(m + 1, b)
        } else {
            0
        }
    }

    // Ground 15.
    pub fn wrong_state(&self, counts: &[u32; 64]) -> bool
        ensures { result ≡ wrong_by self.now.processors self.now.ends.now counts.now self.now.phases }
    {
        let m = self.last_open(counts);
        for b in 0..64 {
            if self.most_of(m, b) < counts[b as usize] {
                return true;
            }
        }
        false
    }

    // The lowest-numbered processor that can step.
    pub fn lowest_ready(&self, counts: &[u32; 64]) -> Option<u32>
        ensures { result ≡ below self.now.processors (lowest self.now.processors (ready_by self.now.processors self.now.ends.now counts.now self.now.phases)) }
    {
        let m = self.last_open(counts);
        self.lowest_left(counts, m + 1)
    }

    // How many iterations all lists have together.
    pub fn listed(&self) -> u32
        requires { EndsFit self.now.ends.now }
        ensures { result ≡ listed_by self.now.processors self.now.ends.now self.now.phases }
    {
        let mut sum: u32 = 0;
        for b in 0..self.processors {
            sum += self.before(self.phases, b);
        }
        sum
    }
}
