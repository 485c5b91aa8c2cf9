// How the indices are cut into blocks, which part of a loop each block has, and when a block is too short.
#![tactic(auto)]

ghost use Rattle.std.specs.Prelude.{◌≡◌, ◌+◌, ◌-◌, ◌^◌, ◌≤◌, ◌<◌};
ghost use Rattle.blocks.specs.Blocks.{lines, start, before, is_short};
ghost use Rattle.blocks.specs.Sums.{column};
ghost use Rattle.blocks.specs.Parts.{fused_part, peeled_part};
ghost use Rattle.blocks.specs.Code.{part_of, block_in};

// The indices from `from` up to `past`, `past` not among them.
#[derive(Clone, Copy)]
pub struct Range {
    pub from: u32,
    pub past: u32,
}

impl Range {
    // How many indices it has.
    pub fn length(self) -> u32
        ensures { result ≡ self.past - self.from }
    {
        arithmetic::length_of(self.from, self.past)
    }
}

// `count` indices from `first` on.
#[derive(Clone, Copy)]
pub struct Span {
    pub first: u32,
    pub count: u32,
}

// A plan along one index: the `count` indices from `first` on, in lines of `line`, are cut into `blocks` blocks, and each loop has a shift and a peel.
#[derive(Clone, Copy)]
pub struct Axis {
    pub first: u32,
    pub count: u32,
    pub line: u32,
    pub blocks: u32,
    pub shifts: [u32; 16],
    pub peels: [u32; 16],
}

// Which part of a loop is meant.
#[derive(Clone, Copy, Debug, PartialEq, Eq)]
pub enum Part {
    Fused,
    Peeled,
}

// How many lines `count` indices have, the last one perhaps not full.
#[tactic(auto, unfolding(crate::specs::Blocks::lines))]
fn lines_of(count: u32, line: u32) -> u32
    requires { (0 < line) × (count + line < 2 ^ 32) }
    ensures { result ≡ lines count line }
{
    (count + line - 1) / line
}

// How many of n lines stand before block b of `blocks`.
fn start_of(n: u32, blocks: u32, b: u32) -> u32
    requires { (0 < blocks) × (b ≤ blocks) }
    ensures { (result ≡ start n blocks b) × (result ≤ n) }
{
    b * (n / blocks) + b.min(n % blocks)
}

// How many of `count` indices stand before block b of `blocks`.
fn before_of(count: u32, line: u32, blocks: u32, b: u32) -> u32
    requires { (0 < line) × (count + line < 2 ^ 32) × (0 < blocks) × (b ≤ blocks) }
    ensures { (result ≡ before count line blocks b) × (result ≤ count) }
{
    let n = start_of(lines_of(count, line), blocks, b);
    (line * n).min(count)
}

// Ground 11. The last block is the smallest, so it alone is held to the threshold.
pub fn short(count: u32, line: u32, blocks: u32, threshold: u32) -> bool
    requires { (0 < line) × (count + line < 2 ^ 32) }
    ensures { result ≡ is_short count line blocks threshold }
{
    lines_of(count, line) < blocks
        || blocks >= 2 && count - before_of(count, line, blocks, blocks - 1) < threshold
}

impl Axis {
    // The indices of block b.
    pub fn block(&self, b: u32) -> Range
        requires { (b < self.now.blocks) × (0 < self.now.line) × (self.now.first + self.now.count + self.now.line < 2 ^ 32) }
        ensures { result ≡ block_in self.now b }
    {
        Range {
            from: self.first + before_of(self.count, self.line, self.blocks, b),
            past: self.first + before_of(self.count, self.line, self.blocks, b + 1),
        }
    }

    // The fused part of loop k, whose bounds are `own`, in block b, whose indices are `blk`.
    #[tactic(auto, unfolding(crate::specs::Parts::fused_part))]
    pub fn fused_part(&self, own: Range, blk: Range, b: u32, k: usize) -> Range
        requires block { b < self.now.blocks }
        requires a_loop { k < 16 }
        requires fits { blk.from + column self.now.peels k < 2 ^ 32 }
        ensures { result ≡ fused_part own blk self.now.blocks b (column self.now.shifts k) (column self.now.peels k) }
    {
        Range {
            from: if b == 0 {
                own.from
            } else {
                (blk.from + self.peels[k]).max(own.from)
            },
            past: if b + 1 == self.blocks {
                own.past
            } else {
                blk.past.saturating_sub(self.shifts[k]).min(own.past)
            },
        }
    }

    // The part of loop k that block b peels: the last block none.
    #[tactic(auto, unfolding(crate::specs::Parts::peeled_part))]
    pub fn peeled_part(&self, own: Range, blk: Range, b: u32, k: usize) -> Range
        requires block { b < self.now.blocks }
        requires a_loop { k < 16 }
        requires fits { blk.past + column self.now.peels k < 2 ^ 32 }
        ensures { result ≡ peeled_part own blk self.now.blocks b (column self.now.shifts k) (column self.now.peels k) }
    {
        let blocks = self.blocks;
        if b + 1 == blocks {
            return Range { from: 0, past: 0 };
        }
        Range {
            from: blk.past.saturating_sub(self.shifts[k]).max(own.from),
            past: (blk.past + self.peels[k]).min(own.past),
        }
    }

    // The part of loop k, whose bounds are `own`, that block b has, whose indices are `blk`.
    pub fn part(&self, part: Part, own: Range, blk: Range, b: u32, k: usize) -> Range
        requires block { b < self.now.blocks }
        requires a_loop { k < 16 }
        requires fits { (blk.from + column self.now.peels k < 2 ^ 32) × (blk.past + column self.now.peels k < 2 ^ 32) }
        ensures { result ≡ part_of part own blk self.now.blocks b (column self.now.shifts k) (column self.now.peels k) }
    {
        match part {
            Part::Fused => self.fused_part(own, blk, b, k),
            Part::Peeled => self.peeled_part(own, blk, b, k),
        }
    }
}
