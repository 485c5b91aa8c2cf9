// Numbers in lent bytes: four bytes each, little-endian.
#![tactic(auto)]

ghost use Rattle.std.specs.Prelude.{◌++◌, ◌+◌, ◌<◌, ◌^◌};
ghost use Rattle.text.specs.Puts.{Puts};
ghost use Rattle.numbers.specs.Numbers.{four};

use text::Writer;

// How many bytes a number has, and a pair of numbers.
pub const NUMBER: usize = 4;

pub const PAIR: usize = 8;

// One number.
pub fn put_number(out: &mut Writer, x: u32)
    requires { out.old.at + 4 < 2 ^ 64 }
    ensures { Puts out.old (four x) 4 out.new }
{
    out.put_word(&x.to_le_bytes());
}

// Two numbers.
pub fn put_pair(out: &mut Writer, x: u32, y: u32)
    requires { out.old.at + 8 < 2 ^ 64 }
    ensures { Puts out.old (four x ++ four y) 8 out.new }
{
    put_number(out, x);
    put_number(out, y);
}
