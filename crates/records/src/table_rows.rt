// The rows of a table as it is kept.

ghost use Rattle.std.specs.Prelude.{◌<◌};

// The kinds of rows.
#[derive(Clone, Copy, Debug, PartialEq, Eq)]
pub enum RowKind {
    Read,
    Destination,
    Constant,
    Operation,
}

// A row: of a statement's destination, or of an item. A value is an offset, a constant or an operation; where no array is named, 0 stands for one.
#[derive(Clone, Copy)]
pub struct Row {
    pub kind: RowKind,
    pub array: u8,
    pub value: u32,
    ghost small: { array < 16 },
}
