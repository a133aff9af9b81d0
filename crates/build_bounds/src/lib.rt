// A page's boundaries before it is built: where each lies, in a slice lent for it or in the arena below the next free address (merges
// take theirs from pages), and the store of one.
#![tactic(auto)]

ghost use Rattle.std.specs.Prelude.{◌≡◌, ◌+◌, ◌≤◌, length, take};
ghost use Rattle.spans.specs.Span.{put};
ghost use Rattle.build_bounds.specs.Boundaries.{Within, boundary_bytes, boundary_of};

use frames::PageId;

// One boundary's place.
#[derive(Clone, Copy)]
pub struct Boundary {
    pub footing: bool,
    pub at: usize,
    pub len: usize,
}

// Both, the count of their common bytes, and the right sibling.
#[derive(Clone, Copy)]
pub struct Boundaries {
    pub lo: Boundary,
    pub hi: Boundary,
    pub prefix: usize,
    pub sibling: PageId,
}

// A boundary that is a whole lent slice.
pub fn boundary_of(s: &[u8]) -> Boundary
    ensures { result ≡ boundary_of s.now }
{
    Boundary {
        footing: false,
        at: 0,
        len: s.len(),
    }
}

// Stores a boundary from at on.
pub fn put_boundary(a: &mut [u8], footing: usize, s: &[u8], e: Boundary, at: usize)
    requires footing_le_at { footing ≤ at }
    requires len_in_bounds { at + e.len ≤ length a.old }
    requires within { Within s.now (take footing a.old) e }
    ensures { a.new ≡ put a.old at (boundary_bytes s.now (take footing a.old) e) }
{
    build_history::copy_part(a, footing, s, e.footing, e.at, e.len, at);
}
