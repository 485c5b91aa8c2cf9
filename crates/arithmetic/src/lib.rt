// How long a range of indices is.
#![tactic(auto)]

ghost use Rattle.std.specs.Prelude.{◌≡◌, ◌-◌};

// How many indices there are from `from` up to `past`, `past` not among them.
pub fn length_of(from: u32, past: u32) -> u32
    ensures { result ≡ past - from }
{
    past.saturating_sub(from)
}
