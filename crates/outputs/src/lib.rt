// What a call tells of what it gives in lent bytes: how many it wrote, or the refusal. The definitions are in specs/.
#![tactic(auto)]

ghost use Rattle.std.specs.Prelude.{◌≡◌};
ghost use Rattle.refusals.specs.Refusals.{met};

use refusals::{Ground, Refusal};

// 13: the lent bytes are too few.
pub fn short() -> Refusal
    ensures { result ≡ met 13 0 }
{
    Ground::Buffer.met(0)
}
