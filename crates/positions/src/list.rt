// The loops of a list, as code has them.

ghost use Rattle.positions.specs.Search.{Aligned, Sized};

// Loop k has the range from froms[k] up to pasts[k], pasts[k] not in it, and the shift shifts[k].
#[derive(Clone, Copy)]
pub struct Columns<'a> {
    pub froms: &'a [u32],
    pub pasts: &'a [u32],
    pub shifts: &'a [u32],
    ghost aligned: { Aligned froms.now pasts.now shifts.now },
}

// The same loops, at most 16 of them, where each iteration of loop k counts weights[k] times. The weights may be lent for another while
// than the columns.
#[derive(Clone, Copy)]
pub struct Weighted<'a, 'b> {
    pub columns: Columns<'a>,
    pub weights: &'b [u32],
    ghost sized: { Sized columns.froms.now columns.pasts.now columns.shifts.now weights.now },
}
