// Index pages: measured, and written as one store. A list's entries are written in one loop (`write_list`), and so are the children of a page
// (`write_pages`, a loop a page); any other source's by passes, which read them through the source alone.
#![tactic(auto)]

ghost use Rattle.std.specs.Prelude.{◌≡◌, [], ◌++◌, true, ◌+◌, ◌-◌, ◌*◌, ◌≤◌, length, take, drop};
ghost use Rattle.spans.specs.Span.{part, put};
ghost use Rattle.numbers.specs.Number.{be_at};
ghost use Rattle.frames.specs.Layout.{slots_at};
ghost use Rattle.frames.specs.Limits.{max_entries, max_key, max_size};
ghost use Rattle.build_sources.specs.Lists.{first_of};
ghost use Rattle.build_sources.specs.Source.{Placed, entry_of, entries, well_formed};
ghost use Rattle.build_image.specs.Image.{index_key_len, index_sums, index_slots, index_recs, index_image};
ghost use Rattle.build_heads.specs.Steps.{Long};
ghost use Rattle.build_sweep.specs.Swept.{listed};
ghost use Rattle.law_rows.specs.Rows.{index_entries};
ghost use Rattle.build_rows.specs.Judged.{Judged};
ghost use Rattle.build_page_pen.specs.Told.{key_told, KeyBelow};
ghost use Rattle.build_bounds.specs.Boundaries.{boundary_bytes, bounds_of, BothWithin};
ghost use Rattle.build_pen.specs.Stretches.{draws};
ghost use Rattle.build_index.specs.Parts.{rec_of, index_rec, index_head, Ready};
ghost use Rattle.build_index.specs.Laid.{index_left, Laid, fixed_on, Fixes};

use build_bounds::Boundaries;
use build_image::Call;
use build_rows::Child;
use build_sources::{Cursor, EntryAt, EntryRead};
use frames::{BaseHeader, Body, BoxHeader, NULL_ADDR};

// The size of an index key of n bytes in all, p of them the page's prefix.
fn key_len(p: usize, n: usize) -> usize
    requires { (n ≤ max_key) × (p ≤ n) }
    ensures { result ≡ index_key_len p n }
{
    values::index_key_size((n - p) as u16)
}

// The size of all records.
pub fn index_sums(list: &[u8], footing: &[u8], from: Cursor, p: usize) -> usize
    requires long { Long p (entries list.now footing.now from) }
    requires from_len_bound { length (entries list.now footing.now from) ≤ max_entries }
    ensures value { result ≡ index_sums p (entries list.now footing.now from) }
    ensures upper_bound { result ≤ 269283315 }
{
    let mut c = from;
    let mut n: usize = 0;
    loop {
        let st = build_sources::next(list, footing, c);
        match st {
            EntryRead::Got(i, d) => {
                n += key_len(p, i.key.plen + i.key.klen) + 8;
                c = d;
            }
            EntryRead::End => {
                return n;
            }
            EntryRead::Bad => {
                return n;
            }
        }
    }
}

// The slots; first is the first record's offset.
fn index_slots(
    a: &mut [u8],
    footing: usize,
    list: &[u8],
    from: Cursor,
    at: usize,
    first: usize,
    p: usize,
)
    requires footing_le_at { footing ≤ at }
    requires long { Long p (entries list.now (take footing a.old) from) }
    requires from_in_bounds { at + length (index_slots p first (entries list.now (take footing a.old) from)) ≤ length a.old }
    requires from_bound { first + index_sums p (entries list.now (take footing a.old) from) ≤ 4294967295 }
    ensures { a.new ≡ put a.old at (index_slots p first (entries list.now (take footing a.old) from)) }
{
    let mut c = from;
    let mut to = at;
    let mut off = first;
    loop {
        let st = build_sources::next(list, &a[..footing], c);
        match st {
            EntryRead::Got(i, d) => {
                let n = key_len(p, i.key.plen + i.key.klen) + 8;
                numbers::put_u32(a, to, off as u32);
                to += 4;
                off += n;
                c = d;
            }
            EntryRead::End => {
                return;
            }
            EntryRead::Bad => {
                return;
            }
        }
    }
}

// A record: the key without its first p bytes, and the page id; the address past it.
fn index_rec(a: &mut [u8], footing: usize, list: &[u8], i: EntryAt, at: usize, p: usize) -> usize
    requires footing_le_at { footing ≤ at }
    requires placed { Placed list.now (take footing a.old) i }
    requires p_bound { p ≤ i.key.plen + i.key.klen }
    requires i_in_bounds { at + length (index_rec p (entry_of list.now (take footing a.old) i)) ≤ length a.old }
    ensures value { result ≡ at + length (index_rec p (entry_of list.now (take footing a.old) i)) }
    ensures a_after { a.new ≡ put a.old at (index_rec p (entry_of list.now (take footing a.old) i)) }
{
    let n = i.key.plen + i.key.klen - p;
    let k = lengths::write(a, at, n as u32);
    let v = build_heads::put_rest(a, footing, list, i, at + k, p);
    numbers::put_u64(a, v, i.page.0);
    v + 8
}

// All records.
fn index_recs(a: &mut [u8], footing: usize, list: &[u8], from: Cursor, at: usize, p: usize)
    requires footing_le_at { footing ≤ at }
    requires long { Long p (entries list.now (take footing a.old) from) }
    requires from_in_bounds { at + length (index_recs p (entries list.now (take footing a.old) from)) ≤ length a.old }
    ensures { a.new ≡ put a.old at (index_recs p (entries list.now (take footing a.old) from)) }
{
    let mut c = from;
    let mut to = at;
    loop {
        let st = build_sources::next(list, &a[..footing], c);
        match st {
            EntryRead::Got(i, d) => {
                to = index_rec(a, footing, list, i, to, p);
                c = d;
            }
            EntryRead::End => {
                return;
            }
            EntryRead::Bad => {
                return;
            }
        }
    }
}

// The headers of an index page.
fn index_head(a: &mut [u8], at: usize, m: Call, n: usize, size: usize, e: Boundaries)
    requires slots_at_in_bounds { at + slots_at ≤ length a.old }
    requires n_le_max_entries { n ≤ max_entries }
    requires size_le_max_size { size ≤ max_size }
    requires len_le_size { (e.lo.len ≤ size) × (e.hi.len ≤ size) × (e.prefix ≤ size) }
    ensures { a.new ≡ put a.old at (index_head m n size e.sibling.0 e.lo.len e.hi.len e.prefix) }
{
    let payload = size as u32;
    let lo = e.lo.len as u32;
    let hi = e.hi.len as u32;
    let b = BaseHeader::new(payload, n as u16, e.sibling, lo, hi, e.prefix as u32, 1, 0);
    build_image::page_head(a, at, m, payload, BoxHeader::INDEX, 0, NULL_ADDR, b);
}

// A whole index page: n entries, size bytes.
pub fn write_index(
    a: &mut [u8],
    footing: usize,
    list: &[u8],
    from: Cursor,
    at: usize,
    m: Call,
    n: usize,
    size: usize,
    lo: &[u8],
    hi: &[u8],
    e: Boundaries,
)
    requires { Ready a.old footing at lo.now hi.now e (entries list.now (take footing a.old) from) n size }
    ensures { a.new ≡ put a.old at (index_image m (bounds_of lo.now hi.now (take footing a.old) e) (entries list.now (take footing a.old) from)) }
{
    let first = BaseHeader::HDR_LEN + 4 * n + e.lo.len + e.hi.len;
    index_head(a, at, m, n, size, e);
    let s = at + BaseHeader::SLOTS_AT;
    index_slots(a, footing, list, from, s, first, e.prefix);
    let q = s + 4 * n;
    build_bounds::put_boundary(a, footing, lo, e.lo, q);
    let r = q + e.lo.len;
    build_bounds::put_boundary(a, footing, hi, e.hi, r);
    let t = r + e.hi.len;
    index_recs(a, footing, list, from, t, e.prefix);
    let z = at + (BoxHeader::HDR_LEN + size);
    spans::zeros(
        a,
        z,
        frames::frame_len(size as u32) - (BoxHeader::HDR_LEN + size),
    );
}

// ---- an index list

// A record of a list's entry, whose key of n bytes stands at kat: the key without its first p bytes, and the page id; the address past it.
fn pen_rec(a: &mut [u8], list: &[u8], kat: usize, n: usize, at: usize, p: usize) -> usize
    requires n_in_bounds { kat + n + 8 ≤ length list.now }
    requires n_le_max_key { (n ≤ max_key) × (p ≤ n) }
    requires n_in_bounds_2 { at + length (rec_of (part list.now (kat + p) (n - p)) (be_at 8 list.now (kat + n))) ≤ length a.old }
    ensures value { result ≡ at + length (rec_of (part list.now (kat + p) (n - p)) (be_at 8 list.now (kat + n))) }
    ensures a_after { a.new ≡ put a.old at (rec_of (part list.now (kat + p) (n - p)) (be_at 8 list.now (kat + n))) }
{
    let rest = n - p;
    let from = kat + p;
    let end = kat + n;
    let k = lengths::write(a, at, rest as u32);
    let to = at + k;
    spans::copy(a, to, &list[from..end]);
    let v = to + rest;
    numbers::put_u64(a, v, numbers::read_u64_be(list, end));
    v + 8
}

// The slots and records of a list's entries, side by side in one loop; offsets count from base.
fn pen_list(a: &mut [u8], list: &[u8], slots: usize, recs: usize, base: usize, p: usize)
    requires first_of_value { well_formed list.now [] (first_of 1) ≡ true }
    requires laid { Laid (length a.old) 0 slots recs base p (listed list.now 1) }
    ensures { a.new ≡ draws a.old (index_left slots recs base p (listed list.now 1)) }
{
    let mut at: usize = 5;
    let mut slot = slots;
    let mut rec = recs;
    // A `while`: each entry says how long it is, so no range counts them; an iterator of our own would be no plainer.
    while at < list.len() {
        let n = numbers::read_u16_be(list, at) as usize;
        let kat = at + 2;
        numbers::put_u32(a, slot, (rec - base) as u32);
        rec = pen_rec(a, list, kat, n, rec, p);
        slot += 4;
        at = kat + n + 8;
    }
}

// What stands around the slots and the records: headers, boundaries and rounding.
fn index_fixed(
    a: &mut [u8],
    footing: usize,
    at: usize,
    m: Call,
    n: usize,
    size: usize,
    lo: &[u8],
    hi: &[u8],
    e: Boundaries,
)
    requires fixes { Fixes (length a.old) footing at e n size }
    requires both_within { BothWithin lo.now hi.now (take footing a.old) e }
    ensures { a.new ≡ fixed_on m at n size e (boundary_bytes lo.now (take footing a.old) e.lo) (boundary_bytes hi.now (take footing a.old) e.hi) a.old }
{
    index_head(a, at, m, n, size, e);
    let q = at + BaseHeader::SLOTS_AT + 4 * n;
    build_bounds::put_boundary(a, footing, lo, e.lo, q);
    let r = q + e.lo.len;
    build_bounds::put_boundary(a, footing, hi, e.hi, r);
    let z = at + (BoxHeader::HDR_LEN + size);
    let end = at + frames::frame_len(size as u32);
    spans::zeros(a, z, end - z);
}

// A whole index page of an index list: n entries, size bytes.
pub fn write_list(
    a: &mut [u8],
    footing: usize,
    list: &[u8],
    at: usize,
    m: Call,
    n: usize,
    size: usize,
    lo: &[u8],
    hi: &[u8],
    e: Boundaries,
)
    requires first_of_value { well_formed list.now [] (first_of 1) ≡ true }
    requires ready { Ready a.old footing at lo.now hi.now e (listed list.now 1) n size }
    ensures { a.new ≡ put a.old at (index_image m (bounds_of lo.now hi.now (take footing a.old) e) (listed list.now 1)) }
{
    index_fixed(a, footing, at, m, n, size, lo, hi, e);
    let s = at + BaseHeader::SLOTS_AT;
    let r = s + 4 * n + e.lo.len + e.hi.len;
    pen_list(a, list, s, r, at + BoxHeader::HDR_LEN, e.prefix);
}

// ---- children of index pages

// The size of the records of children from..end of a sound index page; p is the length of the new page's prefix.
pub fn sum_page(s: &[u8], b: Body, from: usize, end: usize, p: usize) -> usize
    requires judged { Judged s.now b 1 }
    requires end_le_elems { (end ≤ b.elems) × (end - from ≤ max_entries) }
    ensures value { result ≡ index_sums p (index_entries s.now b (end - from) from) }
    ensures upper_bound { result ≤ 4109 * (end - from) }
{
    let mut n: usize = 0;
    for i in from..end {
        let c = build_rows::child_here(s, b, i);
        n += values::index_key_size(spans::less(b.prefix_len + c.rest_len, p) as u16) + 8;
    }
    n
}

// A child's record: its key without its first p bytes, and the page id; the address past it.
fn pen_child(a: &mut [u8], b: Body, c: Child, at: usize, p: usize) -> usize
    requires key_below { KeyBelow at b c.rest_at c.rest_len }
    requires p_bound { p ≤ b.prefix_len + c.rest_len }
    requires page_in_bounds { at + length (rec_of (drop p (key_told a.old b c.rest_at c.rest_len)) c.page.0) ≤ length a.old }
    ensures value { result ≡ at + length (rec_of (drop p (key_told a.old b c.rest_at c.rest_len)) c.page.0) }
    ensures a_after { a.new ≡ put a.old at (rec_of (drop p (key_told a.old b c.rest_at c.rest_len)) c.page.0) }
{
    let n = b.prefix_len + c.rest_len - p;
    let k = lengths::write(a, at, n as u32);
    let to = at + k;
    let _ = build_page_pen::put_rest(a, b, c.rest_at, c.rest_len, to, p);
    let v = to + n;
    numbers::put_u64(a, v, c.page.0);
    v + 8
}

// The slots and records of children from..end of a sound index page below next, side by side in one loop; offsets count from base. The
// address past the records.
fn pen_page(
    a: &mut [u8],
    next: usize,
    b: Body,
    from: usize,
    end: usize,
    slots: usize,
    recs: usize,
    base: usize,
    p: usize,
) -> usize
    requires judged { Judged (take next a.old) b 1 }
    requires end_le_elems { end ≤ b.elems }
    requires laid { Laid (length a.old) next slots recs base p (index_entries (take next a.old) b (end - from) from) }
    ensures value { result ≡ recs + index_sums p (index_entries (take next a.old) b (end - from) from) }
    ensures a_after { a.new ≡ draws a.old (index_left slots recs base p (index_entries (take next a.old) b (end - from) from)) }
{
    let mut slot = slots;
    let mut rec = recs;
    for i in from..end {
        let c = build_rows::child_here(&a[..next], b, i);
        numbers::put_u32(a, slot, (rec - base) as u32);
        rec = pen_child(a, b, c, rec, p);
        slot += 4;
    }
    rec
}

// A whole index page of the children from..end of one page and the first of another: n entries, size bytes.
pub fn write_pages(
    a: &mut [u8],
    footing: usize,
    b: Body,
    from: usize,
    end: usize,
    d: Body,
    count: usize,
    at: usize,
    m: Call,
    n: usize,
    size: usize,
    none: &[u8],
    e: Boundaries,
)
    requires judged { Judged (take footing a.old) b 1 × Judged (take footing a.old) d 1 }
    requires from_le_end { (from ≤ end) × (end ≤ b.elems) × (count ≤ d.elems) }
    requires ready { Ready a.old footing at none.now none.now e (index_entries (take footing a.old) b (end - from) from ++ index_entries (take footing a.old) d count 0) n size }
    ensures { a.new ≡ put a.old at (index_image m (bounds_of none.now none.now (take footing a.old) e) (index_entries (take footing a.old) b (end - from) from ++ index_entries (take footing a.old) d count 0)) }
{
    index_fixed(a, footing, at, m, n, size, none, none, e);
    let s = at + BaseHeader::SLOTS_AT;
    let r = s + 4 * n + e.lo.len + e.hi.len;
    let base = at + BoxHeader::HDR_LEN;
    let k = pen_page(a, footing, b, from, end, s, r, base, e.prefix);
    let t = s + 4 * (end - from);
    let _ = pen_page(a, footing, d, 0, count, t, k, base, e.prefix);
}
