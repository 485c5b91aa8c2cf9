// Where two loops meet, for one index.
#![tactic(auto)]

ghost use Rattle.std.specs.Prelude.{◌≡◌, ◌<◌};
ghost use Rattle.overlap.specs.Overlap.{overlap};

// Whether some iterations of two loops, each within its loop's bounds, are at one element of an array: first, last and offset of each.
#[tactic(auto, unfolding(crate::specs::Overlap::overlap))]
pub fn overlaps(f: usize, l: usize, o: usize, g: usize, m: usize, p: usize) -> bool
    requires { (f < 4294967296) × (l < 4294967296) × (o < 65536) × (g < 4294967296) × (m < 4294967296) × (p < 65536) }
    ensures { result ≡ overlap f l o g m p }
{
    (f + o).max(g + p) <= (l + o).min(m + p)
}
