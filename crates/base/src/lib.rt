// Building: a leaf or index page from a list of entries, judged on its whole input and then written from the next free address on, as one
// store.
#![tactic(auto)]

ghost use Rattle.std.specs.Prelude.{◌≡◌};
ghost use Rattle.build_image.specs.Prefix.{common};
ghost use Rattle.build_image.specs.Call.{call_of};
ghost use Rattle.base.specs.Calls.{bounds_from, new_index_answer, new_index_arena, new_answer, new_arena};

use build_bounds::Boundaries;
use frames::{Addr, PageId, Refusal};

// The count of equal leading bytes of the boundaries; an empty hi is none.
pub fn calc_prefix(lo: &[u8], hi: &[u8]) -> usize
    ensures { result ≡ common lo.now hi.now }
{
    let n = lo.len().min(hi.len());
    for k in 0..n {
        if lo[k] != hi[k] {
            return k;
        }
    }
    n
}

// Builds an index page of an index list: its address and the new next free address, or a refusal that changes nothing.
pub fn new_intl(
    a: &mut [u8],
    next: usize,
    list: &[u8],
    lo: &[u8],
    hi: &[u8],
    sibling: PageId,
    group: u8,
    txid: u64,
    lsn: u64,
    checkpoint: u64,
) -> Result<(Addr, usize), Refusal>
    ensures value { result ≡ new_index_answer a.old next list.now (call_of 0 0 group txid lsn checkpoint) (bounds_from lo.now hi.now sibling.0) }
    ensures a_after { a.new ≡ new_index_arena a.old next list.now (call_of 0 0 group txid lsn checkpoint) (bounds_from lo.now hi.now sibling.0) }
{
    if !build_table::bounds_ok(lo, hi) {
        return Err(Refusal::BadLimit);
    }
    let len = a.len();
    if !build_image::next_ok(len, next) {
        return Err(Refusal::BadArena);
    }
    let b = build_sources::open_index(list);
    let Some(c) = b else {
        return Err(Refusal::BadList);
    };
    let m = build_image::call_of(0, 0, group, txid, lsn, checkpoint);
    let x = build_bounds::boundary_of(lo);
    let y = build_bounds::boundary_of(hi);
    let p = calc_prefix(lo, hi);
    let e = Boundaries {
        lo: x,
        hi: y,
        prefix: p,
        sibling,
    };
    build_table::build_index_list(a, next, list, c, m, lo, hi, e)
}

// Builds a leaf of a record list, its history pages before it and its remote frames behind it: its address and the new next free
// address, or a refusal that changes nothing.
pub fn new_leaf(
    a: &mut [u8],
    next: usize,
    list: &[u8],
    lo: &[u8],
    hi: &[u8],
    sibling: PageId,
    limit: usize,
    budget: usize,
    group: u8,
    txid: u64,
    lsn: u64,
    checkpoint: u64,
) -> Result<(Addr, usize), Refusal>
    ensures value { result ≡ new_answer a.old next list.now (call_of limit budget group txid lsn checkpoint) (bounds_from lo.now hi.now sibling.0) }
    ensures a_after { a.new ≡ new_arena a.old next list.now (call_of limit budget group txid lsn checkpoint) (bounds_from lo.now hi.now sibling.0) }
{
    if !build_table::limits_ok(limit, budget, lo, hi) {
        return Err(Refusal::BadLimit);
    }
    let len = a.len();
    if !build_image::next_ok(len, next) {
        return Err(Refusal::BadArena);
    }
    let b = build_sources::open_records(list);
    let Some(c) = b else {
        return Err(Refusal::BadList);
    };
    let m = build_image::call_of(limit, budget, group, txid, lsn, checkpoint);
    let x = build_bounds::boundary_of(lo);
    let y = build_bounds::boundary_of(hi);
    let p = calc_prefix(lo, hi);
    let e = Boundaries {
        lo: x,
        hi: y,
        prefix: p,
        sibling,
    };
    build_table::build_list(a, next, list, c, m, lo, hi, e)
}
