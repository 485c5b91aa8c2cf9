// A table as it is kept.

ghost use Rattle.records.specs.Sized.{Sized};

use crate::{MOST_ARRAYS, MOST_LOOPS, MOST_ROWS, Row};

// A table as it is kept (reader/specs/Store.antt): the lengths of the arrays; of each loop its bounds and the row at which it begins, with
// where the rows end behind them; the rows; and how many arrays and how many loops there are.
#[derive(Clone, Copy)]
pub struct Store {
    pub lengths: [u32; MOST_ARRAYS],
    pub firsts: [u32; MOST_LOOPS],
    pub lasts: [u32; MOST_LOOPS],
    pub starts: [u32; MOST_LOOPS + 1],
    pub rows: [Row; MOST_ROWS],
    pub arrays: u32,
    pub loops: u32,
    ghost sized: { Sized lengths firsts lasts starts rows },
}
