// Sets of sixteen marks, one a bit of a mask.
#![tactic(auto)]

ghost use Rattle.std.specs.Prelude.{◌≡◌, ◌||◌, ℕ, ◌<◌, ◌≤◌, eqb};
ghost use Rattle.marks.specs.Marks.{marked, size};

// The set m with the mark q.
pub fn with_mark(m: u16, q: usize) -> u16
    requires { q < 16 }
    ensures { (p : ℕ) → marked result p ≡ (marked m p || eqb p q) }
{
    m | (1u16 << q)
}

// The union of two sets.
pub fn union(a: u16, b: u16) -> u16
    ensures { (p : ℕ) → marked result p ≡ (marked a p || marked b p) }
{
    a | b
}

// How many marks a set has: its count of ones.
pub fn size_of(m: u16) -> u32
    ensures { (result ≡ size (marked m)) × (result ≤ 16) }
{
    m.count_ones()
}
