// Building from any source: the whole input is judged without writing, then written from the next free address on, as one store. The
// numbers 6 to 10 are judged on the entries, whatever holds them, and of a list whether it ends well (3); 1, 2 and a list's first five bytes
// are the calls' own (crate base).
#![tactic(auto)]

ghost use Rattle.std.specs.Prelude.{◌≡◌, ◌++◌, true, ◌-◌, ◌≤◌, length, take, Err};
ghost use Rattle.build_sources.specs.Source.{entries};
ghost use Rattle.build_sources.specs.Judged.{rising, prefixed, enclosed, risen_of};
ghost use Rattle.law_rows.specs.Rows.{index_entries};
ghost use Rattle.build_rows.specs.Judged.{Judged};
ghost use Rattle.build_bounds.specs.Boundaries.{Within, BothWithin, boundary_bytes, boundary_of, bounds_of};
ghost use Rattle.build_table.specs.Table.{bounds_ok, leaf_limits, of_list, outside_of, apart_of, refusal_of};
ghost use Rattle.frames.specs.declared.Refusal.{Refusal};
ghost use Rattle.build_table.specs.Index.{Held, index_verdict, index_answer, index_arena, index_weighed};
ghost use Rattle.build_table.specs.Pages.{in_leaves, Leaves};
ghost use Rattle.build_table.specs.Leaf.{leaf_verdict, leaf_answer, leaf_arena, weighed};
ghost use Rattle.build_sources.specs.Lists.{first_of};
ghost use Rattle.build_sweep.specs.Bounds.{Bounded};
ghost use Rattle.frames.specs.Limits.{max_entries, max_key};
ghost use Rattle.build_history.specs.Runs.{Sane};

use build_bounds::{Boundaries, Boundary};
use build_image::Call;
use build_sources::Cursor;
use build_sweep::{Cut, Pages, Tally};
use build_totals::Totals;
use frames::{Addr, BaseHeader, Body, Refusal};

// ---- 1

// "lo or hi over 4,096" is BAD LIMIT.
pub fn bounds_ok(lo: &[u8], hi: &[u8]) -> bool
    ensures { result ≡ bounds_ok lo.now hi.now }
{
    (lo.len() <= BaseHeader::MAX_KEY) & (hi.len() <= BaseHeader::MAX_KEY)
}

// "inline limit not 1..65,536; budget not 256..131,072; lo or hi over 4,096" is BAD LIMIT.
pub fn limits_ok(limit: usize, budget: usize, lo: &[u8], hi: &[u8]) -> bool
    ensures { result ≡ leaf_limits limit budget lo.now hi.now }
{
    let inline = build_image::limits_ok(limit, budget);
    let bounds = bounds_ok(lo, hi);
    inline & bounds
}

// ---- 7

// Whether each key begins with the first p bytes of a boundary.
pub fn begins_with(
    list: &[u8],
    footing: &[u8],
    from: Cursor,
    lo: &[u8],
    e: Boundary,
    p: usize,
) -> bool
    requires within { Within lo.now footing.now e }
    requires p_le_len { p ≤ e.len }
    ensures { result ≡ prefixed (take p (boundary_bytes lo.now footing.now e)) (entries list.now footing.now from) }
{
    if p == 0 {
        return true;
    }
    if e.footing {
        return build_sources::begins(list, footing, from, spans::part_of(footing, e.at, p));
    }
    build_sources::begins(list, footing, from, spans::part_of(lo, e.at, p))
}

// ---- 6 and 10

// Whether the entries rise, and lie between boundaries of which the lower is at hand.
fn rises_below(
    list: &[u8],
    footing: &[u8],
    from: Cursor,
    lo: &[u8],
    hi: &[u8],
    e: Boundary,
) -> Option<(usize, bool)>
    requires { Within hi.now footing.now e }
    ensures { result ≡ risen_of lo.now (boundary_bytes hi.now footing.now e) (entries list.now footing.now from) }
{
    if e.footing {
        return build_sources::rises(
            list,
            footing,
            from,
            lo,
            spans::part_of(footing, e.at, e.len),
        );
    }
    build_sources::rises(list, footing, from, lo, spans::part_of(hi, e.at, e.len))
}

// Whether the entries rise, how many there are, and whether they lie between the boundaries.
fn rises(
    list: &[u8],
    footing: &[u8],
    from: Cursor,
    lo: &[u8],
    hi: &[u8],
    e: Boundaries,
) -> Option<(usize, bool)>
    requires { BothWithin lo.now hi.now footing.now e }
    ensures { result ≡ risen_of (boundary_bytes lo.now footing.now e.lo) (boundary_bytes hi.now footing.now e.hi) (entries list.now footing.now from) }
{
    if e.lo.footing {
        return rises_below(
            list,
            footing,
            from,
            spans::part_of(footing, e.lo.at, e.lo.len),
            hi,
            e.hi,
        );
    }
    rises_below(
        list,
        footing,
        from,
        spans::part_of(lo, e.lo.at, e.lo.len),
        hi,
        e.hi,
    )
}

// Why entries that rise and do not lie between the boundaries are refused: 7 where a key lacks the prefix, else 10. Entries that do lie
// between them have the prefix.
fn outside(list: &[u8], footing: &[u8], from: Cursor, lo: &[u8], e: Boundary, p: usize) -> Refusal
    requires within { Within lo.now footing.now e }
    requires p_le_len { p ≤ e.len }
    ensures { result ≡ outside_of (take p (boundary_bytes lo.now footing.now e)) (entries list.now footing.now from) }
{
    if begins_with(list, footing, from, lo, e, p) {
        return Refusal::Outside;
    }
    Refusal::WrongPrefix
}

// Why pages whose boundaries do not meet are not merged: 6, 7, else 10.
pub fn apart(
    list: &[u8],
    footing: &[u8],
    from: Cursor,
    lo: &[u8],
    hi: &[u8],
    e: Boundaries,
) -> Refusal
    requires { Held lo.now hi.now footing.now e }
    ensures { result ≡ apart_of (take e.prefix (boundary_bytes lo.now footing.now e.lo)) (entries list.now footing.now from) }
{
    let Some((_, _)) = rises(list, footing, from, lo, hi, e) else {
        return Refusal::OutOfOrder;
    };
    outside(list, footing, from, lo, e.lo, e.prefix)
}

// ---- index pages

// 8 and 9 of an index page of n entries whose records take so many bytes; x and y are the lengths of the boundaries.
fn weigh_index(
    len: usize,
    next: usize,
    x: usize,
    y: usize,
    n: usize,
    sums: usize,
) -> Result<(usize, usize), Refusal>
    requires x_le_max_key { (x ≤ max_key) × (y ≤ max_key) }
    requires n_le_max_entries { (n ≤ max_entries) × (sums ≤ 269283315) }
    requires next_le_len { next ≤ len }
    ensures { result ≡ index_weighed len next x y n sums }
{
    let size = BaseHeader::HDR_LEN + 4 * n + x + y + sums;
    if BaseHeader::MAX_SIZE < size {
        return Err(Refusal::TooBig);
    }
    if !spans::room(len, next, frames::frame_len(size as u32)) {
        return Err(Refusal::NoRoom);
    }
    Ok((n, size))
}

// ---- leaves

// 8 and 9, on what a leaf's entries sum up to; x and y are the lengths of the boundaries.
fn weigh(len: usize, x: usize, y: usize, t: Tally, g: Pages) -> Result<Totals, Refusal>
    requires x_le_max_key { (x ≤ max_key) × (y ≤ max_key) }
    requires bounded { Bounded t max_entries }
    requires end_bound { (g.end ≤ 9223372049745510307) × (g.count ≤ max_entries) }
    ensures { result ≡ weighed len x y t g }
{
    let size = BaseHeader::HDR_LEN + 4 * t.heads + x + y + t.sums;
    let room = build_totals::room_of(g.count, t.counted);
    if BaseHeader::MAX_SIZE < size + room {
        return Err(Refusal::TooBig);
    }
    let end = g.end + frames::frame_len((size + room) as u32) + t.remote;
    if len < end {
        return Err(Refusal::NoRoom);
    }
    Ok(Totals {
        heads: t.heads,
        olds: t.olds,
        pages: g.count,
        remotes: t.remotes,
        aged: t.aged,
        size,
        room,
        leaf: g.end,
        end,
    })
}

// ---- two leaves

// Judges heads from..end of a leaf and n heads of another, both sound, whose entries rise and lie between the boundaries: 8, 9. It writes nothing.
fn judge_leaves(
    footing: &[u8],
    b: Body,
    from: usize,
    end: usize,
    d: Body,
    n: usize,
    len: usize,
    next: usize,
    m: Call,
    none: &[u8],
    e: Boundaries,
) -> Result<Totals, Refusal>
    requires leaves { Leaves none.now footing.now b from end d n e (in_leaves footing.now b from end d n) }
    requires sane { Sane m }
    requires next_le_len { (next ≤ len) × (len ≤ 9223372036854775807) }
    ensures { result ≡ leaf_verdict len next m (bounds_of none.now none.now footing.now e) (in_leaves footing.now b from end d n) }
{
    let cut = Cut {
        to: next,
        ..Cut::NONE
    };
    let x = build_page_sweep::sweep_page(
        footing,
        b,
        from,
        end,
        e.prefix,
        m.limit,
        m.budget,
        Tally::NOTHING,
        cut,
    );
    let Some((t, g)) = x else {
        return Err(Refusal::TooBig);
    };
    let y = build_page_sweep::sweep_page(footing, d, 0, n, e.prefix, m.limit, m.budget, t, g);
    let Some((u, h)) = y else {
        return Err(Refusal::TooBig);
    };
    weigh(len, e.lo.len, e.hi.len, u, build_sweep::closed(h))
}

// Builds a leaf of heads from..end of one sound leaf and n heads of another, whose entries rise and lie between the boundaries.
pub fn build_leaves(
    a: &mut [u8],
    next: usize,
    b: Body,
    from: usize,
    end: usize,
    d: Body,
    n: usize,
    m: Call,
    none: &[u8],
    e: Boundaries,
) -> Result<(Addr, usize), Refusal>
    requires next_in_bounds { next ≤ length a.old }
    requires leaves { Leaves none.now (take next a.old) b from end d n e (in_leaves (take next a.old) b from end d n) }
    requires sane { Sane m }
    ensures value { result ≡ leaf_answer a.old next m (bounds_of none.now none.now (take next a.old) e) (in_leaves (take next a.old) b from end d n) }
    ensures a_after { a.new ≡ leaf_arena a.old next m (bounds_of none.now none.now (take next a.old) e) (in_leaves (take next a.old) b from end d n) }
{
    let len = a.len();
    let t = judge_leaves(&a[..next], b, from, end, d, n, len, next, m, none, e)?;
    let leaf = build_leaf::write_leaves(a, next, b, from, end, d, n, next, m, t, none, e);
    Ok((Addr(leaf as u64), t.end))
}

// ---- why a list is refused

// Why a list that its sweep, or the test of its first and last key, did not pass is refused: 3, 6, 7, 10; one with none of these faults has too many
// entries.
fn refused(
    list: &[u8],
    footing: &[u8],
    from: Cursor,
    lo: &[u8],
    hi: &[u8],
    e: Boundaries,
) -> Refusal
    requires { Held lo.now hi.now footing.now e }
    ensures { result ≡ refusal_of list.now footing.now from (bounds_of lo.now hi.now footing.now e) }
{
    if !build_sources::well(list, footing, from) {
        return Refusal::BadList;
    }
    let Some((_, inside)) = rises(list, footing, from, lo, hi, e) else {
        return Refusal::OutOfOrder;
    };
    if inside {
        return Refusal::TooBig;
    }
    outside(list, footing, from, lo, e.lo, e.prefix)
}

// ---- a record list

// Judges a record list: 3, 6, 7, 10, 8, 9. It writes nothing. One sweep accepts it.
pub fn judge_list(
    list: &[u8],
    footing: &[u8],
    from: Cursor,
    len: usize,
    next: usize,
    m: Call,
    lo: &[u8],
    hi: &[u8],
    e: Boundaries,
) -> Result<Totals, Refusal>
    requires from_value { from ≡ first_of 0 }
    requires lo_value { (e.lo ≡ boundary_of lo.now) × (e.hi ≡ boundary_of hi.now) }
    requires held { Held lo.now hi.now footing.now e }
    requires sane { Sane m }
    requires next_le_len { (next ≤ len) × (len ≤ 9223372036854775807) }
    ensures { result ≡ of_list list.now footing.now 0 (Err Refusal.BadList) (leaf_verdict len next m (bounds_of lo.now hi.now footing.now e)) }
{
    let s = build_sweep::sweep_list(list, e.prefix, next, m.limit, m.budget);
    let Some((t, g, kat, klen)) = s else {
        return Err(refused(list, footing, from, lo, hi, e));
    };
    if build_sweep::spans_ends(list, t.heads + t.olds, kat, klen, lo, hi) {
        return weigh(len, lo.len(), hi.len(), t, g);
    }
    Err(refused(list, footing, from, lo, hi, e))
}

// Builds a leaf of a record list, whose boundaries are the lent slices.
pub fn build_list(
    a: &mut [u8],
    next: usize,
    list: &[u8],
    from: Cursor,
    m: Call,
    lo: &[u8],
    hi: &[u8],
    e: Boundaries,
) -> Result<(Addr, usize), Refusal>
    requires from_value { from ≡ first_of 0 }
    requires lo_value { (e.lo ≡ boundary_of lo.now) × (e.hi ≡ boundary_of hi.now) }
    requires next_in_bounds { next ≤ length a.old }
    requires held { Held lo.now hi.now (take next a.old) e }
    requires sane { Sane m }
    ensures value { result ≡ of_list list.now (take next a.old) 0 (Err Refusal.BadList) (leaf_answer a.old next m (bounds_of lo.now hi.now (take next a.old) e)) }
    ensures a_after { a.new ≡ of_list list.now (take next a.old) 0 a.old (leaf_arena a.old next m (bounds_of lo.now hi.now (take next a.old) e)) }
{
    let len = a.len();
    let t = judge_list(list, &a[..next], from, len, next, m, lo, hi, e)?;
    let leaf = build_leaf::write_list(a, next, list, next, m, t, lo, hi, e);
    Ok((Addr(leaf as u64), t.end))
}

// ---- an index list

// Judges an index list: 3, 6, 7, 10, 8, 9. It writes nothing. One sweep accepts it.
pub fn judge_index_list(
    list: &[u8],
    footing: &[u8],
    from: Cursor,
    len: usize,
    next: usize,
    lo: &[u8],
    hi: &[u8],
    e: Boundaries,
) -> Result<(usize, usize), Refusal>
    requires from_value { from ≡ first_of 1 }
    requires lo_value { (e.lo ≡ boundary_of lo.now) × (e.hi ≡ boundary_of hi.now) }
    requires held { Held lo.now hi.now footing.now e }
    requires next_le_len { next ≤ len }
    ensures { result ≡ of_list list.now footing.now 1 (Err Refusal.BadList) (index_verdict len next (bounds_of lo.now hi.now footing.now e) e) }
{
    let s = build_sweep::sweep_index(list, e.prefix);
    let Some((n, sums, kat, klen)) = s else {
        return Err(refused(list, footing, from, lo, hi, e));
    };
    if build_sweep::spans_ends(list, n, kat, klen, lo, hi) {
        return weigh_index(len, next, lo.len(), hi.len(), n, sums);
    }
    Err(refused(list, footing, from, lo, hi, e))
}

// Builds an index page of an index list, whose boundaries are the lent slices.
pub fn build_index_list(
    a: &mut [u8],
    next: usize,
    list: &[u8],
    from: Cursor,
    m: Call,
    lo: &[u8],
    hi: &[u8],
    e: Boundaries,
) -> Result<(Addr, usize), Refusal>
    requires from_value { from ≡ first_of 1 }
    requires lo_value { (e.lo ≡ boundary_of lo.now) × (e.hi ≡ boundary_of hi.now) }
    requires next_in_bounds { next ≤ length a.old }
    requires held { Held lo.now hi.now (take next a.old) e }
    ensures value { result ≡ of_list list.now (take next a.old) 1 (Err Refusal.BadList) (index_answer a.old next m (bounds_of lo.now hi.now (take next a.old) e)) }
    ensures a_after { a.new ≡ of_list list.now (take next a.old) 1 a.old (index_arena a.old next m (bounds_of lo.now hi.now (take next a.old) e)) }
{
    let len = a.len();
    let (n, size) = judge_index_list(list, &a[..next], from, len, next, lo, hi, e)?;
    build_index::write_list(a, next, list, next, m, n, size, lo, hi, e);
    Ok((Addr(next as u64), next + frames::frame_len(size as u32)))
}

// ---- two index pages

// Judges the children from..end of one page and the first of another, which rise and lie between the boundaries: 8, 9. It writes nothing.
fn judge_indexes(
    footing: &[u8],
    b: Body,
    from: usize,
    end: usize,
    d: Body,
    count: usize,
    len: usize,
    next: usize,
    none: &[u8],
    e: Boundaries,
) -> Result<(usize, usize), Refusal>
    requires judged { Judged footing.now b 1 × Judged footing.now d 1 }
    requires from_le_end { (from ≤ end) × (end ≤ b.elems) × (count ≤ d.elems) }
    requires held { Held none.now none.now footing.now e }
    requires next_le_len { next ≤ len }
    requires count_value { rising (index_entries footing.now b (end - from) from ++ index_entries footing.now d count 0) ≡ true }
    requires count_value_2 { enclosed (boundary_bytes none.now footing.now e.lo) (boundary_bytes none.now footing.now e.hi) (index_entries footing.now b (end - from) from ++ index_entries footing.now d count 0) ≡ true }
    ensures { result ≡ index_verdict len next (bounds_of none.now none.now footing.now e) e (index_entries footing.now b (end - from) from ++ index_entries footing.now d count 0) }
{
    let n = end - from + count;
    if BaseHeader::MAX_ENTRIES < n {
        return Err(Refusal::TooBig);
    }
    let one = build_index::sum_page(footing, b, from, end, e.prefix);
    let two = build_index::sum_page(footing, d, 0, count, e.prefix);
    weigh_index(len, next, e.lo.len, e.hi.len, n, one + two)
}

// Builds an index page of the children from..end of one sound page and the first of another, which rise and lie between the boundaries.
pub fn build_indexes(
    a: &mut [u8],
    next: usize,
    b: Body,
    from: usize,
    end: usize,
    d: Body,
    count: usize,
    m: Call,
    none: &[u8],
    e: Boundaries,
) -> Result<(Addr, usize), Refusal>
    requires next_in_bounds { next ≤ length a.old }
    requires judged { Judged (take next a.old) b 1 × Judged (take next a.old) d 1 }
    requires from_le_end { (from ≤ end) × (end ≤ b.elems) × (count ≤ d.elems) }
    requires held { Held none.now none.now (take next a.old) e }
    requires count_value { rising (index_entries (take next a.old) b (end - from) from ++ index_entries (take next a.old) d count 0) ≡ true }
    requires count_value_2 { enclosed (boundary_bytes none.now (take next a.old) e.lo) (boundary_bytes none.now (take next a.old) e.hi) (index_entries (take next a.old) b (end - from) from ++ index_entries (take next a.old) d count 0) ≡ true }
    ensures value { result ≡ index_answer a.old next m (bounds_of none.now none.now (take next a.old) e) (index_entries (take next a.old) b (end - from) from ++ index_entries (take next a.old) d count 0) }
    ensures a_after { a.new ≡ index_arena a.old next m (bounds_of none.now none.now (take next a.old) e) (index_entries (take next a.old) b (end - from) from ++ index_entries (take next a.old) d count 0) }
{
    let len = a.len();
    let (n, size) = judge_indexes(&a[..next], b, from, end, d, count, len, next, none, e)?;
    build_index::write_pages(a, next, b, from, end, d, count, next, m, n, size, none, e);
    Ok((Addr(next as u64), next + frames::frame_len(size as u32)))
}
