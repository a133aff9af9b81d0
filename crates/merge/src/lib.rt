// Merging: two pages below the next free address become one, built anew from every record of the left, then of the right. Both are
// checked first; then the builder judges and writes.
#![tactic(auto)]

ghost use Rattle.std.specs.Prelude.{◌≡◌, true, [], ◌≤◌, length, take, Some};
ghost use Rattle.pages.specs.Meaning.{meaning};
ghost use Rattle.build_history.specs.Runs.{Sane};
ghost use Rattle.build_table.specs.Index.{index_answer, index_arena};
ghost use Rattle.build_table.specs.Leaf.{leaf_answer, leaf_arena};
ghost use Rattle.build_image.specs.Call.{call_of};
ghost use Rattle.merge.specs.declared.Kind.{Kind};
ghost use Rattle.merge.specs.Merge.{said_kind, kinds_by, kinds_of, gathered, Sound, bounds_in, meet_in, merged};
ghost use Rattle.merge.specs.Answer.{apart_in, kinds_answer, kinds_arena, merge_answer, merge_arena};

use build_bounds::{Boundaries, Boundary};
use build_image::Call;
use build_sources::Cursor;
use frames::{Addr, Refusal};

// The kind of a sound page.
#[derive(Clone, Copy)]
pub enum Kind {
    Leaf,
    Index,
}

// The kinds of two. Bad is 4 and Mixed 5: `sound_ok` and `kinds_ok` (specs/Answer.antt) ask of these four, and the error of a Result could be any refusal.
#[derive(Clone, Copy)]
pub enum Kinds {
    Leaves,
    Indexes,
    Mixed,
    Bad,
}

// The kind of the page at an address, where it is sound.
fn said_kind(footing: &[u8], a: Addr) -> Option<Kind>
    ensures { result ≡ said_kind (meaning footing.now a) }
{
    let Ok(()) = pages::check(footing, a) else {
        return None;
    };
    let b = frames::open_at(footing, a)?;
    if b.kind == 1 {
        return Some(Kind::Index);
    }
    Some(Kind::Leaf)
}

// Two kinds.
fn kinds_by(x: Option<Kind>, y: Option<Kind>) -> Kinds
    ensures { result ≡ kinds_by x y }
{
    let Some(x) = x else {
        return Kinds::Bad;
    };
    let Some(y) = y else {
        return Kinds::Bad;
    };
    match x {
        Kind::Leaf => match y {
            Kind::Leaf => Kinds::Leaves,
            Kind::Index => Kinds::Mixed,
        },
        Kind::Index => match y {
            Kind::Leaf => Kinds::Mixed,
            Kind::Index => Kinds::Indexes,
        },
    }
}

// 4, then 5.
fn kinds_of(footing: &[u8], left: Addr, right: Addr) -> Kinds
    ensures { result ≡ kinds_of (meaning footing.now left) (meaning footing.now right) }
{
    let x = said_kind(footing, left);
    let y = said_kind(footing, right);
    kinds_by(x, y)
}

// The places of what is merged.
fn gather(footing: &[u8], left: Addr, right: Addr) -> Option<(Cursor, Boundaries)>
    ensures { result ≡ gathered footing.now left right }
{
    let c = build_sources::open_pages(footing, left, right)?;
    let Ok(p) = pages::bounds_at(footing, left) else {
        return None;
    };
    let Ok(q) = pages::bounds_at(footing, right) else {
        return None;
    };
    let n = base::calc_prefix(
        spans::part_of(footing, p.lo.at, p.lo.len),
        spans::part_of(footing, q.hi.at, q.hi.len),
    );
    Some((
        c,
        Boundaries {
            lo: Boundary {
                footing: true,
                at: p.lo.at,
                len: p.lo.len,
            },
            hi: Boundary {
                footing: true,
                at: q.hi.at,
                len: q.hi.len,
            },
            prefix: n,
            sibling: q.sibling,
        },
    ))
}

// Whether the left page ends where the right one begins; a left page without hi ends nowhere.
fn meets(footing: &[u8], left: Addr, right: Addr) -> bool
    ensures { result ≡ meet_in footing.now left right }
{
    order::meets(pages::hi(footing, left), pages::lo(footing, right))
}

// Why two pages of one kind that do not meet are not merged. A merge is lent no slice: `none` is empty.
fn apart(footing: &[u8], left: Addr, right: Addr, none: &[u8]) -> Refusal
    requires none_value { none.now ≡ [] }
    requires sound { Sound footing.now left }
    requires sound_2 { Sound footing.now right }
    requires left_value { said_kind (meaning footing.now left) ≡ said_kind (meaning footing.now right) }
    ensures { result ≡ apart_in (bounds_in footing.now left right) (merged footing.now left right) }
{
    let Some((c, e)) = gather(footing, left, right) else {
        return Refusal::BadFrame;
    };
    build_table::apart(none, footing, c, none, none, e)
}

// Two index pages that were judged and meet.
fn merge_indexes(
    a: &mut [u8],
    next: usize,
    left: Addr,
    right: Addr,
    m: Call,
    none: &[u8],
) -> Result<(Addr, usize), Refusal>
    requires next_in_bounds { next ≤ length a.old }
    requires none_value { none.now ≡ [] }
    requires sound { Sound (take next a.old) left × Sound (take next a.old) right }
    requires left_value { (said_kind (meaning (take next a.old) left) ≡ (Some Kind.Index)) × (said_kind (meaning (take next a.old) right) ≡ (Some Kind.Index)) }
    requires right_value { meet_in (take next a.old) left right ≡ true }
    ensures value { result ≡ index_answer a.old next m (bounds_in (take next a.old) left right) (merged (take next a.old) left right) }
    ensures a_after { a.new ≡ index_arena a.old next m (bounds_in (take next a.old) left right) (merged (take next a.old) left right) }
{
    let Some((_, e)) = gather(&a[..next], left, right) else {
        return Err(Refusal::BadFrame);
    };
    let Some(b) = frames::open_at(&a[..next], left) else {
        return Err(Refusal::BadFrame);
    };
    let Some(d) = frames::open_at(&a[..next], right) else {
        return Err(Refusal::BadFrame);
    };
    build_table::build_indexes(a, next, b, 0, b.elems, d, d.elems, m, none, e)
}

// Two leaves that were judged and meet.
fn merge_leaves(
    a: &mut [u8],
    next: usize,
    left: Addr,
    right: Addr,
    m: Call,
    none: &[u8],
) -> Result<(Addr, usize), Refusal>
    requires next_in_bounds { next ≤ length a.old }
    requires none_value { none.now ≡ [] }
    requires sane { Sane m }
    requires sound { Sound (take next a.old) left × Sound (take next a.old) right }
    requires left_value { (said_kind (meaning (take next a.old) left) ≡ (Some Kind.Leaf)) × (said_kind (meaning (take next a.old) right) ≡ (Some Kind.Leaf)) }
    requires right_value { meet_in (take next a.old) left right ≡ true }
    ensures value { result ≡ leaf_answer a.old next m (bounds_in (take next a.old) left right) (merged (take next a.old) left right) }
    ensures a_after { a.new ≡ leaf_arena a.old next m (bounds_in (take next a.old) left right) (merged (take next a.old) left right) }
{
    let Some((_, e)) = gather(&a[..next], left, right) else {
        return Err(Refusal::BadFrame);
    };
    let Some(b) = frames::open_at(&a[..next], left) else {
        return Err(Refusal::BadFrame);
    };
    let Some(d) = frames::open_at(&a[..next], right) else {
        return Err(Refusal::BadFrame);
    };
    build_table::build_leaves(a, next, b, 0, b.elems, d, d.elems, m, none, e)
}

// Pages that were judged, by their kinds.
fn merge_kinds(
    a: &mut [u8],
    next: usize,
    left: Addr,
    right: Addr,
    m: Call,
    none: &[u8],
) -> Result<(Addr, usize), Refusal>
    requires next_in_bounds { next ≤ length a.old }
    requires none_value { none.now ≡ [] }
    requires sane { Sane m }
    ensures value { result ≡ kinds_answer a.old next m left right }
    ensures a_after { a.new ≡ kinds_arena a.old next m left right }
{
    let k = kinds_of(&a[..next], left, right);
    let met = meets(&a[..next], left, right);
    match k {
        Kinds::Leaves => {
            if met {
                return merge_leaves(a, next, left, right, m, none);
            }
            Err(apart(&a[..next], left, right, none))
        }
        Kinds::Indexes => {
            if met {
                return merge_indexes(a, next, left, right, m, none);
            }
            Err(apart(&a[..next], left, right, none))
        }
        Kinds::Mixed => Err(Refusal::MixedKinds),
        Kinds::Bad => Err(Refusal::BadFrame),
    }
}

// Merges two pages into one, built anew: its address and the new next free address, or a refusal that changes nothing.
pub fn merge(
    a: &mut [u8],
    next: usize,
    left: Addr,
    right: Addr,
    limit: usize,
    budget: usize,
    group: u8,
    txid: u64,
    lsn: u64,
    checkpoint: u64,
) -> Result<(Addr, usize), Refusal>
    ensures value { result ≡ merge_answer a.old next (call_of limit budget group txid lsn checkpoint) left right }
    ensures a_after { a.new ≡ merge_arena a.old next (call_of limit budget group txid lsn checkpoint) left right }
{
    if !build_image::limits_ok(limit, budget) {
        return Err(Refusal::BadLimit);
    }
    let len = a.len();
    if !build_image::next_ok(len, next) {
        return Err(Refusal::BadArena);
    }
    let m = build_image::call_of(limit, budget, group, txid, lsn, checkpoint);
    merge_kinds(a, next, left, right, m, b"")
}
