// The ranges of the loops in a phase of a block.

ghost use Rattle.ranges.specs.Sized.{Sized};

// Loop k has the range from froms[k] up to pasts[k], pasts[k] not in it, and the shift shifts[k].
#[derive(Clone, Copy)]
pub struct PhaseRanges {
    pub froms: [u32; 16],
    pub pasts: [u32; 16],
    pub shifts: [u32; 16],
    ghost sized: { Sized froms pasts shifts },
}
