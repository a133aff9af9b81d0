// Head records: a leaf key without the page's prefix, and the value with its history reference; the slots and records of all heads.
#![tactic(auto)]

ghost use Rattle.std.specs.Prelude.{◌≡◌, true, ◌+◌, ◌≤◌, length, take, drop};
ghost use Rattle.spans.specs.Span.{put};
ghost use Rattle.frames.specs.Limits.{max_entries, max_key, max_value};
ghost use Rattle.build_sources.specs.Source.{Placed, entry_of, entries, only, olds, heads};
ghost use Rattle.build_image.specs.Sizes.{key_len, old_run, remotes_len};
ghost use Rattle.build_image.specs.Image.{any, head_rec, head_recs, head_slots, history_end, places, cuts_of};
ghost use Rattle.build_history.specs.Runs.{Sane};
ghost use Rattle.build_heads.specs.Steps.{slot_if, step_len, steps, Long};
ghost use Rattle.build_heads.specs.Located.{end_at, Settled, onward_of, rec_if, remote_if, run_if, named_by};

use build_image::Call;
use build_sources::{Cursor, EntryAt, EntryRead};
use frames::Addr;
use values::{HistRef, Val};

// Where the next old version stands: its page and slot, how many of the page are left, and where the page behind it starts.
#[derive(Clone, Copy)]
pub struct Loc {
    pub page: usize,
    pub slot: usize,
    pub left: usize,
    pub next: usize,
}

// The key of an entry without its first p bytes, from at on; the address past it.
pub fn put_rest(a: &mut [u8], footing: usize, list: &[u8], i: EntryAt, at: usize, p: usize) -> usize
    requires footing_le_at { footing ≤ at }
    requires placed { Placed list.now (take footing a.old) i }
    requires p_bound { p ≤ i.key.plen + i.key.klen }
    requires i_in_bounds { at + length (drop p (entry_of list.now (take footing a.old) i).key) ≤ length a.old }
    ensures value { result ≡ at + length (drop p (entry_of list.now (take footing a.old) i).key) }
    ensures a_after { a.new ≡ put a.old at (drop p (entry_of list.now (take footing a.old) i).key) }
{
    let n = i.key.plen;
    if n < p {
        let skip = p - n;
        let j = i.key.klen - skip;
        build_history::copy_part(a, footing, list, i.footing, i.key.kat + skip, j, at);
        return at + j;
    }
    let f = n - p;
    build_history::copy_part(a, footing, list, i.footing, i.key.pat + p, f, at);
    let v = at + f;
    build_history::copy_part(a, footing, list, i.footing, i.key.kat, i.key.klen, v);
    v + i.key.klen
}

// A head's record.
pub fn head_rec(
    a: &mut [u8],
    footing: usize,
    list: &[u8],
    i: EntryAt,
    at: usize,
    p: usize,
    limit: usize,
    remote: usize,
    h: HistRef,
)
    requires footing_le_at { footing ≤ at }
    requires placed { Placed list.now (take footing a.old) i }
    requires p_bound { p ≤ i.key.plen + i.key.klen }
    requires i_in_bounds { at + length (head_rec limit p remote h (entry_of list.now (take footing a.old) i)) ≤ length a.old }
    ensures { a.new ≡ put a.old at (head_rec limit p remote h (entry_of list.now (take footing a.old) i)) }
{
    let n = i.key.plen + i.key.klen - p;
    let k = values::write_leaf_front(a, at, i.ver, n);
    let s = put_rest(a, footing, list, i, at + k, p);
    build_history::put_val(a, footing, list, i, s, h, limit, remote);
}

// How many old versions stand in front. No range to walk: the source says where they end.
pub fn old_run(list: &[u8], footing: &[u8], from: Cursor) -> usize
    ensures { result ≡ old_run (entries list.now footing.now from) }
{
    let mut c = from;
    let mut n: usize = 0;
    loop {
        let st = build_sources::next(list, footing, c);
        match st {
            EntryRead::Got(i, d) => {
                if !i.old {
                    return n;
                }
                n += 1;
                c = d;
            }
            EntryRead::End => {
                return n;
            }
            EntryRead::Bad => {
                return n;
            }
        }
    }
}

// Whether an old version stands in front.
fn has_old(list: &[u8], footing: &[u8], c: Cursor) -> bool
    ensures { result ≡ any (old_run (entries list.now footing.now c)) }
{
    let st = build_sources::next(list, footing, c);
    match st {
        EntryRead::Got(i, _) => i.old,
        EntryRead::End => false,
        EntryRead::Bad => false,
    }
}

// The size of a leaf key of n bytes in all, p of them the page's prefix.
pub fn key_len(p: usize, n: usize) -> usize
    requires { (n ≤ max_key) × (p ≤ n) }
    ensures { result ≡ key_len p n }
{
    values::leaf_key_size((n - p) as u16)
}

// A head's slot; none for an old version. The address past it.
fn put_slot(a: &mut [u8], at: usize, off: usize, old: bool) -> usize
    requires off_in_bounds { at + length (slot_if old off) ≤ length a.old }
    requires off_bound { off ≤ 4294967295 }
    ensures value { result ≡ at + length (slot_if old off) }
    ensures a_after { a.new ≡ put a.old at (slot_if old off) }
{
    if old {
        return at;
    }
    numbers::put_u32(a, at, off as u32);
    at + 4
}

// How far behind an entry's record the next head's stands; nothing for an old version.
fn slot_step(list: &[u8], footing: &[u8], i: EntryAt, d: Cursor, p: usize, limit: usize) -> usize
    requires placed { Placed list.now footing.now i }
    requires p_bound { p ≤ i.key.plen + i.key.klen }
    ensures { result ≡ step_len limit p (entry_of list.now footing.now i) (entries list.now footing.now d) }
{
    if i.old {
        return 0;
    }
    let h = has_old(list, footing, d);
    key_len(p, i.key.plen + i.key.klen) + Val::calc_size(h, limit, i.vlen as u32)
}

// The slots of all heads; first is the first record's offset.
pub fn head_slots(
    a: &mut [u8],
    footing: usize,
    list: &[u8],
    from: Cursor,
    at: usize,
    first: usize,
    p: usize,
    limit: usize,
)
    requires footing_le_at { footing ≤ at }
    requires long { Long p (entries list.now (take footing a.old) from) }
    requires from_in_bounds { at + length (head_slots limit p first (entries list.now (take footing a.old) from)) ≤ length a.old }
    requires from_bound { first + steps limit p (entries list.now (take footing a.old) from) ≤ 4294967295 }
    ensures { a.new ≡ put a.old at (head_slots limit p first (entries list.now (take footing a.old) from)) }
{
    let mut c = from;
    let mut to = at;
    let mut off = first;
    loop {
        let st = build_sources::next(list, &a[..footing], c);
        match st {
            EntryRead::Got(i, d) => {
                let n = slot_step(list, &a[..footing], i, d, p, limit);
                to = put_slot(a, to, off, i.old);
                off += n;
                c = d;
            }
            EntryRead::End => {
                return;
            }
            EntryRead::Bad => {
                return;
            }
        }
    }
}

// ---- records

// The locator with a place at hand, where one is to be named. It looks ahead once a page.
fn settle(list: &[u8], footing: &[u8], c: Cursor, p: Loc, named: bool, m: Call) -> Loc
    requires sane { Sane m }
    requires c_bound { end_at m.limit m.budget p (only true (entries list.now footing.now c)) ≤ 18446744073709551615 }
    ensures { Settled m.limit m.budget (only true (entries list.now footing.now c)) named p result }
{
    if !named {
        return p;
    }
    if p.left > 0 {
        return p;
    }
    let s = build_history::look_ahead(list, footing, c, m.limit, m.budget);
    if s.run.count == 0 {
        return p;
    }
    let end = p.next + frames::frame_len(s.run.size as u32);
    Loc {
        page: p.next,
        slot: 0,
        left: s.run.count,
        next: end + s.run.remote,
    }
}

// The locator behind an entry.
fn onward(q: Loc, old: bool) -> Loc
    requires le_left { old ≡ true → 1 ≤ q.left }
    requires left_bound { q.slot + q.left ≤ max_entries }
    ensures { result ≡ onward_of old q }
{
    if !old {
        return q;
    }
    Loc {
        slot: q.slot + 1,
        left: q.left - 1,
        ..q
    }
}

// How many old versions an entry names: those behind a head.
fn run_of(list: &[u8], footing: &[u8], d: Cursor, old: bool) -> usize
    ensures { result ≡ run_if old (old_run (entries list.now footing.now d)) }
{
    if old {
        return 0;
    }
    old_run(list, footing, d)
}

// Whether an entry needs a place: an old version, or a head with old versions behind it.
fn names(old: bool, k: usize) -> bool
    ensures { result ≡ named_by old k }
{
    old | (k != 0)
}

// The remote frame that an entry's head takes; nothing for an old version.
fn remote_step(i: EntryAt, limit: usize) -> usize
    requires { i.vlen ≤ max_value }
    ensures { result ≡ remote_if i.old limit i.vlen i.kept.0 }
{
    if i.old {
        return 0;
    }
    build_image::remote_len(limit, i.vlen, i.kept)
}

// A head's record; none for an old version. The address past it.
fn put_head(
    a: &mut [u8],
    footing: usize,
    list: &[u8],
    i: EntryAt,
    at: usize,
    p: usize,
    limit: usize,
    remote: usize,
    h: HistRef,
) -> usize
    requires footing_le_at { footing ≤ at }
    requires placed { Placed list.now (take footing a.old) i }
    requires p_bound { p ≤ i.key.plen + i.key.klen }
    requires i_in_bounds { at + length (rec_if limit p remote h (entry_of list.now (take footing a.old) i)) ≤ length a.old }
    ensures value { result ≡ at + length (rec_if limit p remote h (entry_of list.now (take footing a.old) i)) }
    ensures a_after { a.new ≡ put a.old at (rec_if limit p remote h (entry_of list.now (take footing a.old) i)) }
{
    if i.old {
        return at;
    }
    let k = key_len(p, i.key.plen + i.key.klen);
    let n = k + Val::calc_size(h.count > 0, limit, i.vlen as u32);
    head_rec(a, footing, list, i, at, p, limit, remote, h);
    at + n
}

// The records of all heads; the address past them. History stands from first on; the first new remote frame of a head stands at remote.
pub fn head_recs(
    a: &mut [u8],
    footing: usize,
    list: &[u8],
    from: Cursor,
    at: usize,
    p: usize,
    m: Call,
    first: usize,
    remote: usize,
) -> usize
    requires footing_le_at { footing ≤ at }
    requires sane { Sane m }
    requires long { Long p (entries list.now (take footing a.old) from) }
    requires from_len_bound { length (entries list.now (take footing a.old) from) ≤ max_entries }
    requires from_in_bounds { history_end m.limit first (cuts_of m (entries list.now (take footing a.old) from)) (olds (entries list.now (take footing a.old) from)) ≤ length a.old }
    requires from_in_bounds_2 { remote + remotes_len m.limit (heads (entries list.now (take footing a.old) from)) ≤ length a.old }
    requires from_in_bounds_3 { at + length (head_recs m.limit p remote (places m.limit first (cuts_of m (entries list.now (take footing a.old) from)) (olds (entries list.now (take footing a.old) from))) (entries list.now (take footing a.old) from)) ≤ length a.old }
    ensures value { result ≡ at + length (head_recs m.limit p remote (places m.limit first (cuts_of m (entries list.now (take footing a.old) from)) (olds (entries list.now (take footing a.old) from))) (entries list.now (take footing a.old) from)) }
    ensures a_after { a.new ≡ put a.old at (head_recs m.limit p remote (places m.limit first (cuts_of m (entries list.now (take footing a.old) from)) (olds (entries list.now (take footing a.old) from))) (entries list.now (take footing a.old) from)) }
{
    let mut c = from;
    let mut to = at;
    let mut next = remote;
    let mut loc = Loc {
        page: 0,
        slot: 0,
        left: 0,
        next: first,
    };
    loop {
        let st = build_sources::next(list, &a[..footing], c);
        match st {
            EntryRead::Got(i, d) => {
                let k = run_of(list, &a[..footing], d, i.old);
                let named = names(i.old, k);
                let q = settle(list, &a[..footing], c, loc, named, m);
                let h = HistRef {
                    page: Addr(q.page as u64),
                    slot: q.slot as u16,
                    count: k as u32,
                };
                let beyond = next + remote_step(i, m.limit);
                to = put_head(a, footing, list, i, to, p, m.limit, next, h);
                next = beyond;
                loc = onward(q, i.old);
                c = d;
            }
            EntryRead::End => {
                return to;
            }
            EntryRead::Bad => {
                return to;
            }
        }
    }
}
