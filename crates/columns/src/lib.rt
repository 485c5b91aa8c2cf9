// References in columns, in which a walk over pairs finds the partners of a reference by one comparison each.
#![tactic(auto)]

ghost use Rattle.std.specs.Prelude.{◌≡◌, ◌<◌, ◌≤◌};
ghost use Rattle.model.specs.References.{touch};
ghost use Rattle.columns.specs.Columns.{stored_as, ref_at, Marked, no_references, with_reference, searched_in};

use model::Reference;
use records::MOST_ROWS;

// One number of each reference, at its position. Numbers of two bytes, since the columns are set to 0 at each call.
pub type Column = [u16; MOST_ROWS];

// References, each at its position in each of four columns: its array; its array again where it stores, and where it reads NONE; its loop; its
// offset. What a pair needs is one number of a column: a destination's partners have its array in the first, a read's have it in the second.
#[derive(Clone, Copy)]
pub struct Columns {
    arrays: Column,
    stored: Column,
    loops: Column,
    offsets: Column,
}

// No array's number: so the one comparison fails where two reads meet, and no test of the kinds is made.
const NONE: u16 = 16;

// What stands in the second column for y.
fn stored_of(y: Reference) -> u16
    requires { y.array < 16 }
    ensures { result ≡ stored_as y }
{
    if y.stores { y.array as u16 } else { NONE }
}

impl Columns {
    pub fn new() -> Self
        ensures { result ≡ no_references }
    {
        Columns {
            arrays: [0; MOST_ROWS],
            stored: [0; MOST_ROWS],
            loops: [0; MOST_ROWS],
            offsets: [0; MOST_ROWS],
        }
    }

    // The reference at position x.
    pub fn reference_at(&self, x: usize) -> Reference
        requires { x < 576 }
        ensures { result ≡ ref_at self.now x }
    {
        Reference {
            number: self.loops[x] as usize,
            array: self.arrays[x] as usize,
            offset: self.offsets[x] as usize,
            stores: self.stored[x] == self.arrays[x],
        }
    }

    // y put at position n.
    #[tactic(auto, unfolding(crate::specs::Columns::with_reference))]
    pub fn put(&mut self, n: usize, y: Reference)
        requires { (n < 576) × (y.array < 16) × (y.number < 16) × (y.offset ≤ 510) }
        ensures { self.new ≡ with_reference n y self.old }
    {
        self.arrays[n] = y.array as u16;
        self.stored[n] = stored_of(y);
        self.loops[n] = y.number as u16;
        self.offsets[n] = y.offset as u16;
    }

    // The column in which a destination's partners have its array, and that in which a read's have it.
    pub fn searched(&self, stores: bool) -> &Column
        ensures { result.now ≡ searched_in self.now stores }
    {
        if stores { &self.arrays } else { &self.stored }
    }

    // Whether the reference at position x and y are to one array, one of them storing. `column` is that in which y's partners are: one comparison tells.
    pub fn touches(&self, column: &Column, x: usize, y: Reference) -> bool
        requires { (x < 576) × Marked self.now x × (y.array < 16) × (column.now ≡ searched_in self.now y.stores) }
        ensures { result ≡ touch (ref_at self.now x) y }
    {
        column[x] as usize == y.array
    }
}
