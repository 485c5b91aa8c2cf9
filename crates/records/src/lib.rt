// What a record of a loop table is, and what the tests on it look at in the records before it.
#![tactic(auto)]

ghost use Rattle.std.specs.Prelude.{◌≡◌, ◌+◌, ◌<◌, ◌≤◌};
ghost use Rattle.records.specs.History.{operands, with_array, with_loop, with_item, with_statement, advanced, blank};
ghost use Rattle.records.specs.Bytes.{kind_of};
ghost use Rattle.records.specs.Clear.{Room};

use refusals::Refusal;

mod storage;
mod table_rows;

pub use storage::Store;
pub use table_rows::{Row, RowKind};

// How many rows all loops have: sixteen loops, each with four destinations and 32 items.
pub const MOST_ROWS: usize = 576;

// How many arrays and how many loops there are at most.
pub const MOST_ARRAYS: usize = 16;

pub const MOST_LOOPS: usize = 16;

#[derive(Clone, Copy, Debug, PartialEq, Eq)]
pub enum Kind {
    Unknown,
    Array,
    Loop,
    Read,
    Constant,
    Operation,
    End,
    Statement,
}

// The kind that a byte stands for.
impl From<u8> for Kind {
    ghost from_gives = { λ b k. k ≡ kind_of b };

    #[tactic(auto, unfolding(crate::specs::Bytes::kind_of))]
    fn from(b: u8) -> Kind {
        match b {
            1 => Kind::Array,
            2 => Kind::Loop,
            3 => Kind::Read,
            4 => Kind::Constant,
            5 => Kind::Operation,
            6 => Kind::End,
            7 => Kind::Statement,
            _ => Kind::Unknown,
        }
    }
}

// A record with its fields. An offset o is kept as o + 255.
#[derive(Clone, Copy, Debug, PartialEq, Eq)]
pub enum Record {
    Unknown,
    Array(u32),
    Loop {
        first: u32,
        last: u32,
        array: u32,
        offset: u32,
    },
    Read {
        array: u32,
        offset: u32,
    },
    Constant(u32),
    Operation(u32),
    End,
    Statement {
        array: u32,
        offset: u32,
    },
}

// What the tests look at in the records before: counts of arrays, of elements in all and of loops; of the latest loop its first and
// last, how many statements and items it has, and how many numbers wait in its latest statement.
#[derive(Clone, Copy, Debug, PartialEq, Eq)]
pub struct Summary {
    pub arrays: u32,
    pub elements: u32,
    pub loops: u32,
    pub first: u32,
    pub last: u32,
    pub statements: u32,
    pub items: u32,
    pub waiting: u32,
}

// What the tests of the record at a place find: a refusal there, or the record and the place after it, or that it is the end record.
#[derive(Clone, Copy)]
pub enum Tested {
    Refused(Refusal),
    Passed(Record, usize),
    Ended(usize),
}

// How many numbers an operation takes.
#[tactic(auto, unfolding(crate::specs::History::operands))]
pub fn operands_of(o: u32) -> u32
    ensures { result ≡ operands o }
{
    if o == 5 { 1 } else { 2 }
}

impl Summary {
    // Before the first record: no body is unfinished, and no loop has room.
    #[tactic(auto, unfolding(crate::specs::History::blank))]
    pub fn blank() -> Self
        ensures { result ≡ blank }
    {
        Summary {
            arrays: 0,
            elements: 0,
            loops: 0,
            first: 0,
            last: 0,
            statements: 4,
            items: 32,
            waiting: 1,
        }
    }

    #[tactic(auto, unfolding(crate::specs::History::with_array))]
    fn with_array(self, n: u32) -> Self
        requires { (self.arrays < 16) × (self.elements + n ≤ 262144) }
        ensures { result ≡ with_array n self }
    {
        Summary {
            arrays: self.arrays + 1,
            elements: self.elements + n,
            ..self
        }
    }

    #[tactic(auto, unfolding(crate::specs::History::with_loop))]
    fn with_loop(self, first: u32, last: u32) -> Self
        requires { self.loops < 16 }
        ensures { result ≡ with_loop first last self }
    {
        Summary {
            loops: self.loops + 1,
            first,
            last,
            statements: 1,
            items: 0,
            waiting: 0,
            ..self
        }
    }

    #[tactic(auto, unfolding(crate::specs::History::with_item))]
    fn with_item(self, waiting: u32) -> Self
        requires { self.items < 32 }
        ensures { result ≡ with_item waiting self }
    {
        Summary {
            items: self.items + 1,
            waiting,
            ..self
        }
    }

    #[tactic(auto, unfolding(crate::specs::History::with_statement))]
    fn with_statement(self) -> Self
        requires { self.statements < 4 }
        ensures { result ≡ with_statement self }
    {
        Summary {
            statements: self.statements + 1,
            waiting: 0,
            ..self
        }
    }

    // After a record that met no ground.
    #[tactic(auto, unfolding(crate::specs::History::advanced))]
    pub fn advance(self, r: Record) -> Self
        requires { Room r self }
        ensures { result ≡ advanced r self }
    {
        match r {
            Record::Unknown | Record::End => self,
            Record::Array(n) => self.with_array(n),
            Record::Loop { first, last, .. } => self.with_loop(first, last),
            Record::Read { .. } | Record::Constant(_) => self.with_item(self.waiting + 1),
            Record::Operation(o) => self.with_item(self.waiting - operands_of(o) + 1),
            Record::Statement { .. } => self.with_statement(),
        }
    }
}

impl Store {
    // With no table in it: no arrays and no loops.
    pub fn new() -> Self
        ensures { (result.arrays ≡ 0) × (result.loops ≡ 0) }
    {
        Store {
            lengths: [0; MOST_ARRAYS],
            firsts: [0; MOST_LOOPS],
            lasts: [0; MOST_LOOPS],
            starts: [0; MOST_LOOPS + 1],
            rows: [Row {
                kind: RowKind::Read,
                array: 0,
                value: 0,
            }; MOST_ROWS],
            arrays: 0,
            loops: 0,
        }
    }
}
