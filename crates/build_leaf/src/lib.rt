// The whole leaf: history pages, the leaf's frame with its hints, the heads' remote frames. What no entry tells is stored first; the entries, of a record
// list or of leaves, are written by the pen.
#![tactic(auto)]

ghost use Rattle.std.specs.Prelude.{◌≡◌, ◌++◌, true, ◌+◌, ◌-◌, ◌*◌, ◌≤◌, length, take};
ghost use Rattle.spans.specs.Span.{put};
ghost use Rattle.frames.specs.Layout.{frame_len, box_len, slots_at};
ghost use Rattle.frames.specs.Limits.{max_entries, max_size};
ghost use Rattle.build_image.specs.Image.{one_if, leaf_image};
ghost use Rattle.build_history.specs.Runs.{Sane};
ghost use Rattle.build_heads.specs.Steps.{Long};
ghost use Rattle.build_bounds.specs.Boundaries.{boundary_bytes, bounds_of, BothWithin};
ghost use Rattle.build_totals.specs.Totals.{totals_of};
ghost use Rattle.law_rows.specs.Rows.{leaf_entries};
ghost use Rattle.build_rows.specs.Judged.{Judged};
ghost use Rattle.build_pen.specs.Places.{list_from, Well};
ghost use Rattle.build_leaf.specs.Listed.{hint_places, hints_set, fixed_on, Fixes, opened_at};
ghost use Rattle.build_leaf.specs.Leaf.{Small, leaf_head};

use build_bounds::Boundaries;
use build_heads::Loc;
use build_image::Call;
use build_page_pen::Penned;
use build_pen::{Nib, Pen};
use build_totals::Totals;
use frames::{BaseHeader, Body, BoxHeader, NULL_ADDR};

// ---- the frame

fn one_if(n: usize) -> u8
    ensures { result ≡ one_if n }
{
    u8::from(n != 0)
}

// The leaf's headers.
fn leaf_head(a: &mut [u8], at: usize, m: Call, t: Totals, e: Boundaries)
    requires slots_at_in_bounds { at + slots_at ≤ length a.old }
    requires small { Small t e }
    requires heads_le_max_entries { t.heads ≤ max_entries }
    ensures { a.new ≡ put a.old at (leaf_head m t e) }
{
    let many = one_if(t.olds);
    let payload = (t.size + t.room) as u32;
    let n = t.heads as u16;
    let lo = e.lo.len as u32;
    let hi = e.hi.len as u32;
    let b = BaseHeader::new(
        t.size as u32,
        n,
        e.sibling,
        lo,
        hi,
        e.prefix as u32,
        0,
        many,
    );
    build_image::page_head(a, at, m, payload, BoxHeader::LEAF, 0, NULL_ADDR, b);
}

// ---- a record list's leaf

// Where the hints of history pages, of old versions' remotes and of heads' stand.
#[derive(Clone, Copy)]
pub struct HintPlaces {
    pub pages: usize,
    pub olds: usize,
    pub heads: usize,
}

// The hints' counts, and zeros in what is left of their room; where the hints stand.
fn hint_counts(a: &mut [u8], at: usize, t: Totals) -> HintPlaces
    requires room_in_bounds { at + t.room ≤ length a.old }
    requires room_le_max_size { t.room ≤ max_size }
    requires remotes_bound { (t.room ≡ 0 → ⊥) → 8 + 8 * t.pages + 8 * t.remotes ≤ t.room }
    requires aged_le_remotes { t.aged ≤ t.remotes }
    ensures value { result ≡ hint_places t.room at t.pages t.aged }
    ensures a_after { a.new ≡ hints_set t.room at t.pages t.remotes a.old }
{
    if t.room == 0 {
        return HintPlaces {
            pages: at,
            olds: at,
            heads: at,
        };
    }
    let p = at + 4;
    let c = p + 8 * t.pages;
    let o = c + 4;
    let z = o + 8 * t.remotes;
    numbers::put_u32(a, at, t.pages as u32);
    numbers::put_u32(a, c, t.remotes as u32);
    spans::zeros(a, z, at + t.room - z);
    HintPlaces {
        pages: p,
        olds: o,
        heads: o + 8 * t.aged,
    }
}

// All of a leaf's frame that no entry tells; where its hints stand.
fn leaf_fixed(
    a: &mut [u8],
    footing: usize,
    m: Call,
    t: Totals,
    remote: usize,
    lo: &[u8],
    hi: &[u8],
    e: Boundaries,
) -> HintPlaces
    requires fixes { Fixes (length a.old) footing t e remote }
    requires both_within { BothWithin lo.now hi.now (take footing a.old) e }
    ensures value { result ≡ hint_places t.room (t.leaf + (box_len + t.size)) t.pages t.aged }
    ensures a_after { a.new ≡ fixed_on m t e remote (boundary_bytes lo.now (take footing a.old) e.lo) (boundary_bytes hi.now (take footing a.old) e.hi) a.old }
{
    leaf_head(a, t.leaf, m, t, e);
    let x = t.leaf + BaseHeader::SLOTS_AT + 4 * t.heads;
    build_bounds::put_boundary(a, footing, lo, e.lo, x);
    let y = x + e.lo.len;
    build_bounds::put_boundary(a, footing, hi, e.hi, y);
    let q = t.leaf + (BoxHeader::HDR_LEN + t.size);
    let w = q + t.room;
    spans::zeros(a, w, remote - w);
    hint_counts(a, q, t)
}

// Where the entries of a leaf are to be written: its old versions, its heads, and its heads' hints.
#[derive(Clone, Copy)]
pub struct Opened {
    pub pen: Pen,
    pub nib: Nib,
    pub hint: usize,
}

// A leaf opened for the pen: all of its frame that no entry tells is stored, and its history stands from at on.
fn leaf_open(
    a: &mut [u8],
    footing: usize,
    at: usize,
    m: Call,
    t: Totals,
    lo: &[u8],
    hi: &[u8],
    e: Boundaries,
) -> Opened
    requires fixes { Fixes (length a.old) footing t e (t.leaf + frame_len (t.size + t.room)) }
    requires both_within { BothWithin lo.now hi.now (take footing a.old) e }
    ensures value { result ≡ opened_at at t e (t.leaf + frame_len (t.size + t.room)) (hint_places t.room (t.leaf + (box_len + t.size)) t.pages t.aged) }
    ensures a_after { a.new ≡ fixed_on m t e (t.leaf + frame_len (t.size + t.room)) (boundary_bytes lo.now (take footing a.old) e.lo) (boundary_bytes hi.now (take footing a.old) e.hi) a.old }
{
    let remote = t.leaf + frames::frame_len((t.size + t.room) as u32);
    let k = leaf_fixed(a, footing, m, t, remote, lo, hi, e);
    let pen = Pen {
        loc: Loc {
            page: 0,
            slot: 0,
            left: 0,
            next: at,
        },
        nib: Nib {
            slot: at,
            rec: at,
            remote: at,
        },
        pages: k.pages,
        hint: k.olds,
    };
    let s = t.leaf + BaseHeader::SLOTS_AT;
    Opened {
        pen,
        nib: Nib {
            slot: s,
            rec: s + 4 * t.heads + e.lo.len + e.hi.len,
            remote,
        },
        hint: k.heads,
    }
}

// The whole leaf of a record list from this address on, its entries by the pen; the leaf's own address.
pub fn write_list(
    a: &mut [u8],
    footing: usize,
    list: &[u8],
    at: usize,
    m: Call,
    t: Totals,
    lo: &[u8],
    hi: &[u8],
    e: Boundaries,
) -> usize
    requires footing_le_at { footing ≤ at }
    requires sane { Sane m }
    requires small { Small t e }
    requires both_within { BothWithin lo.now hi.now (take footing a.old) e }
    requires well { Well list.now 5 }
    requires long { Long e.prefix (list_from list.now 5) }
    requires list_len_bound { length (list_from list.now 5) ≤ max_entries }
    requires t_value { t ≡ totals_of m (bounds_of lo.now hi.now (take footing a.old) e) at (list_from list.now 5) }
    requires end_in_bounds { t.end ≤ length a.old }
    ensures value { result ≡ t.leaf }
    ensures a_after { a.new ≡ put a.old at (leaf_image m (bounds_of lo.now hi.now (take footing a.old) e) at (list_from list.now 5)) }
{
    let o = leaf_open(a, footing, at, m, t, lo, hi, e);
    let base = t.leaf + BoxHeader::HDR_LEN;
    let z = build_pen::pen_all(a, list, 5, o.pen, o.nib, o.hint, base, m, e.prefix);
    let q = t.leaf + (BoxHeader::HDR_LEN + t.size);
    spans::zeros(a, z, q - z);
    t.leaf
}

// The whole leaf of heads from..end of one sound leaf and n heads of another, both below the footing, from this address on; the leaf's own address.
pub fn write_leaves(
    a: &mut [u8],
    footing: usize,
    b: Body,
    from: usize,
    end: usize,
    d: Body,
    n: usize,
    at: usize,
    m: Call,
    t: Totals,
    none: &[u8],
    e: Boundaries,
) -> usize
    requires footing_le_at { footing ≤ at }
    requires sane { Sane m }
    requires small { Small t e }
    requires both_within { BothWithin none.now none.now (take footing a.old) e }
    requires judged { Judged (take footing a.old) b 0 × Judged (take footing a.old) d 0 }
    requires end_le_elems { (end ≤ b.elems) × (n ≤ d.elems) }
    requires long { Long e.prefix (leaf_entries (take footing a.old) b (end - from) from ++ leaf_entries (take footing a.old) d n 0) }
    requires n_len_bound { length (leaf_entries (take footing a.old) b (end - from) from ++ leaf_entries (take footing a.old) d n 0) ≤ max_entries }
    requires t_value { t ≡ totals_of m (bounds_of none.now none.now (take footing a.old) e) at (leaf_entries (take footing a.old) b (end - from) from ++ leaf_entries (take footing a.old) d n 0) }
    requires end_in_bounds { t.end ≤ length a.old }
    ensures value { result ≡ t.leaf }
    ensures a_after { a.new ≡ put a.old at (leaf_image m (bounds_of none.now none.now (take footing a.old) e) at (leaf_entries (take footing a.old) b (end - from) from ++ leaf_entries (take footing a.old) d n 0)) }
{
    let o = leaf_open(a, footing, at, m, t, none, none, e);
    let base = t.leaf + BoxHeader::HDR_LEN;
    let x = Penned {
        pen: o.pen,
        nib: o.nib,
        hint: o.hint,
    };
    let z = build_page_pen::pen_leaves(a, footing, b, from, end, d, n, x, base, m, e.prefix);
    let q = t.leaf + (BoxHeader::HDR_LEN + t.size);
    spans::zeros(a, z, q - z);
    t.leaf
}
