// History pages: old versions written page by page, each page with its remote frames behind it; remote frames of heads too. Each
// function stores exactly its part of the image, from one address upward, and reads its entries through the source alone.
#![tactic(auto)]

ghost use Rattle.std.specs.Prelude.{◌≡◌, true, cond, ◌+◌, ◌≤◌, length, take};
ghost use Rattle.spans.specs.Span.{part, put};
ghost use Rattle.frames.specs.Layout.{slots_at};
ghost use Rattle.frames.specs.Limits.{max_budget, max_entries, max_limit, max_value};
ghost use Rattle.build_paging.specs.Cuts.{total};
ghost use Rattle.build_sources.specs.Keys.{src_of};
ghost use Rattle.build_sources.specs.Source.{Placed, entry_of, entries, only, Skipped};
ghost use Rattle.build_image.specs.Sizes.{costs_of, remotes_len};
ghost use Rattle.build_image.specs.Image.{val_bytes, remote_frame, remote_frame_of, remote_frames, old_rec, old_recs, old_slots, hist_head, page_end};
ghost use Rattle.build_history.specs.Runs.{Sane, these, run_of, run_page, history_at, history_end_at};

use build_image::Call;
use build_sources::{Cursor, EntryAt};
use frames::{Addr, BaseHeader, BoxHeader, NULL_ADDR, NULL_PID};
use values::{HistRef, Val};

// A history page that is to come: how many old versions it takes, its size, its remote frames' length, and whether more are left.
#[derive(Clone, Copy)]
pub struct PageAhead {
    pub count: usize,
    pub size: usize,
    pub remote: usize,
    pub more: bool,
}

// A look ahead: that page, and the old versions behind it.
#[derive(Clone, Copy)]
pub struct Look {
    pub run: PageAhead,
    pub rest: Cursor,
}

// ---- looking ahead

// The history page that comes next. No range to walk: the budget or the source says where it ends.
pub fn look_ahead(list: &[u8], footing: &[u8], from: Cursor, limit: usize, budget: usize) -> Look
    requires { (limit ≤ max_limit) × (budget ≤ max_budget) }
    ensures run_value { result.run ≡ run_of limit budget (only true (entries list.now footing.now from)) }
    ensures skipped { Skipped list.now footing.now true from result.run.count result.rest }
{
    let mut c = from;
    let mut n: usize = 0;
    let mut t: usize = BaseHeader::HDR_LEN;
    let mut f: usize = 0;
    loop {
        let st = build_sources::next_of(list, footing, true, c);
        let Some((i, d)) = st else {
            return Look {
                run: PageAhead {
                    count: n,
                    size: t,
                    remote: f,
                    more: false,
                },
                rest: c,
            };
        };
        let s = 12 + Val::calc_size(false, limit, i.vlen as u32) + 4;
        if !build_paging::takes(budget, n, t, s) {
            return Look {
                run: PageAhead {
                    count: n,
                    size: t,
                    remote: f,
                    more: true,
                },
                rest: c,
            };
        }
        n += 1;
        t += s;
        f += build_image::remote_len(limit, i.vlen, i.kept);
        c = d;
    }
}

// ---- writing

// Stores n bytes of the lent slice, or of the arena below low, from at on.
pub fn copy_part(
    a: &mut [u8],
    footing: usize,
    list: &[u8],
    inside: bool,
    from: usize,
    n: usize,
    at: usize,
)
    requires footing_le_at { footing ≤ at }
    requires n_in_bounds { at + n ≤ length a.old }
    requires n_in_bounds_2 { from + n ≤ length (src_of list.now (take footing a.old) inside) }
    ensures { a.new ≡ put a.old at (part (src_of list.now (take footing a.old) inside) from n) }
{
    if inside {
        spans::copy_within(a, from, at, n);
    } else {
        let s = spans::part_of(list, from, n);
        spans::copy(a, at, s);
    }
}

// A value with its history reference: its bytes, or the address of its remote, which is `remote` where it takes a new frame.
pub fn put_val(
    a: &mut [u8],
    footing: usize,
    list: &[u8],
    i: EntryAt,
    at: usize,
    h: HistRef,
    limit: usize,
    remote: usize,
)
    requires footing_le_at { footing ≤ at }
    requires placed { Placed list.now (take footing a.old) i }
    requires i_in_bounds { at + length (val_bytes limit remote h (entry_of list.now (take footing a.old) i)) ≤ length a.old }
    ensures { a.new ≡ put a.old at (val_bytes limit remote h (entry_of list.now (take footing a.old) i)) }
{
    let n = i.vlen;
    if n < limit {
        let k = Val::write_front(a, at, h, false, n);
        let v = at + k;
        copy_part(a, footing, list, i.footing, i.vat, n, v);
    } else {
        let j = Val::write_front(a, at, h, true, n);
        let w = at + j;
        let addr = build_image::remote_addr(remote, i.kept);
        numbers::put_u64(a, w, addr);
    }
}

// An old version's record.
fn old_rec(
    a: &mut [u8],
    footing: usize,
    list: &[u8],
    i: EntryAt,
    at: usize,
    limit: usize,
    remote: usize,
)
    requires footing_le_at { footing ≤ at }
    requires placed { Placed list.now (take footing a.old) i }
    requires i_in_bounds { at + length (old_rec limit remote (entry_of list.now (take footing a.old) i)) ≤ length a.old }
    ensures { a.new ≡ put a.old at (old_rec limit remote (entry_of list.now (take footing a.old) i)) }
{
    let k = values::write_ver(a, at, i.ver);
    put_val(a, footing, list, i, at + k, HistRef::NONE, limit, remote);
}

// The slots of the next n old versions; first is the first record's offset.
fn old_slots(
    a: &mut [u8],
    footing: usize,
    list: &[u8],
    from: Cursor,
    n: usize,
    at: usize,
    first: usize,
    limit: usize,
)
    requires footing_le_at { footing ≤ at }
    requires n_in_bounds { at + length (old_slots limit first (these list.now a.old footing true from n)) ≤ length a.old }
    requires n_bound { first + total (costs_of limit (these list.now a.old footing true from n)) ≤ 4294967295 }
    ensures { a.new ≡ put a.old at (old_slots limit first (these list.now a.old footing true from n)) }
{
    let mut c = from;
    let mut to = at;
    let mut off = first;
    for _ in 0..n {
        let st = build_sources::next_of(list, &a[..footing], true, c);
        let Some((i, d)) = st else {
            return;
        };
        numbers::put_u32(a, to, off as u32);
        to += 4;
        off += 12 + Val::calc_size(false, limit, i.vlen as u32);
        c = d;
    }
}

// Their records; a new remote frame stands at `remote`, the next one behind it.
fn old_recs(
    a: &mut [u8],
    footing: usize,
    list: &[u8],
    from: Cursor,
    n: usize,
    at: usize,
    limit: usize,
    remote: usize,
)
    requires footing_le_at { footing ≤ at }
    requires n_in_bounds { at + length (old_recs limit remote (these list.now a.old footing true from n)) ≤ length a.old }
    requires n_in_bounds_2 { remote + remotes_len limit (these list.now a.old footing true from n) ≤ length a.old }
    ensures { a.new ≡ put a.old at (old_recs limit remote (these list.now a.old footing true from n)) }
{
    let mut c = from;
    let mut to = at;
    let mut next = remote;
    for _ in 0..n {
        let st = build_sources::next_of(list, &a[..footing], true, c);
        let Some((i, d)) = st else {
            return;
        };
        let kept = i.kept;
        let past = to + (12 + Val::calc_size(false, limit, i.vlen as u32));
        let beyond = next + build_image::remote_len(limit, i.vlen, kept);
        old_rec(a, footing, list, i, to, limit, next);
        to = past;
        next = beyond;
        c = d;
    }
}

// The remote frame of a value of n bytes, which stands in the lent slice, or in the arena below the footing.
pub fn remote_frame(
    a: &mut [u8],
    footing: usize,
    list: &[u8],
    inside: bool,
    from: usize,
    n: usize,
    at: usize,
    m: Call,
)
    requires footing_le_at { footing ≤ at }
    requires n_le_max_value { n ≤ max_value }
    requires n_in_bounds { from + n ≤ length (src_of list.now (take footing a.old) inside) }
    requires n_in_bounds_2 { at + length (remote_frame m (part (src_of list.now (take footing a.old) inside) from n)) ≤ length a.old }
    ensures { a.new ≡ put a.old at (remote_frame m (part (src_of list.now (take footing a.old) inside) from n)) }
{
    let payload = (8 + n) as u32;
    let h = BoxHeader {
        payload_size: payload,
        box_kind: BoxHeader::REMOTE,
        node_type: BoxHeader::LEAF,
        flag: 0,
        group: m.group,
        link: NULL_ADDR,
        txid: 0,
        lsn: m.lsn,
    };
    frames::put_box(a, at, h);
    let s = at + BoxHeader::HDR_LEN;
    numbers::put_u64(a, s, n as u64);
    let v = s + 8;
    copy_part(a, footing, list, inside, from, n, v);
    let z = v + n;
    let k = frames::frame_len(payload) - (BoxHeader::HDR_LEN + (8 + n));
    spans::zeros(a, z, k);
}

// The remote frame of an entry, if it takes one; the address past it.
fn remote_frame_of(
    a: &mut [u8],
    footing: usize,
    list: &[u8],
    i: EntryAt,
    at: usize,
    m: Call,
) -> usize
    requires footing_le_at { footing ≤ at }
    requires placed { Placed list.now (take footing a.old) i }
    requires i_in_bounds { at + length (remote_frame_of m (entry_of list.now (take footing a.old) i)) ≤ length a.old }
    ensures value { result ≡ at + length (remote_frame_of m (entry_of list.now (take footing a.old) i)) }
    ensures a_after { a.new ≡ put a.old at (remote_frame_of m (entry_of list.now (take footing a.old) i)) }
{
    let n = i.vlen;
    if n < m.limit {
        return at;
    }
    if i.kept.0 != 0 {
        return at;
    }
    remote_frame(a, footing, list, i.footing, i.vat, n, at, m);
    at + frames::frame_len((8 + n) as u32)
}

// The remote frames of the next n old versions, or heads, one by one.
fn each_remote_frame(
    a: &mut [u8],
    footing: usize,
    list: &[u8],
    want: bool,
    from: Cursor,
    n: usize,
    at: usize,
    m: Call,
)
    requires footing_le_at { footing ≤ at }
    requires n_in_bounds { at + length (remote_frames m (these list.now a.old footing want from n)) ≤ length a.old }
    ensures { a.new ≡ put a.old at (remote_frames m (these list.now a.old footing want from n)) }
{
    let mut c = from;
    let mut to = at;
    for _ in 0..n {
        let st = build_sources::next_of(list, &a[..footing], want, c);
        let Some((i, d)) = st else {
            return;
        };
        to = remote_frame_of(a, footing, list, i, to, m);
        c = d;
    }
}

// The same, which take len bytes: where that is none, no entry is read.
pub fn remote_frames(
    a: &mut [u8],
    footing: usize,
    list: &[u8],
    want: bool,
    from: Cursor,
    n: usize,
    at: usize,
    m: Call,
    len: usize,
)
    requires footing_le_at { footing ≤ at }
    requires n_in_bounds { at + length (remote_frames m (these list.now a.old footing want from n)) ≤ length a.old }
    requires len_value { len ≡ remotes_len m.limit (these list.now a.old footing want from n) }
    ensures { a.new ≡ put a.old at (remote_frames m (these list.now a.old footing want from n)) }
{
    if len == 0 {
        return;
    }
    each_remote_frame(a, footing, list, want, from, n, at, m);
}

// The headers of a history page.
pub fn hist_head(a: &mut [u8], at: usize, m: Call, link: usize, n: usize, size: usize)
    requires slots_at_in_bounds { at + slots_at ≤ length a.old }
    requires n_le_max_entries { n ≤ max_entries }
    requires size_bound { size ≤ 4294967295 }
    ensures { a.new ≡ put a.old at (hist_head m link n size) }
{
    let payload = size as u32;
    let to = Addr(link as u64);
    let b = BaseHeader::new(payload, n as u16, NULL_PID, 0, 0, 0, 0, 0);
    build_image::page_head(
        a,
        at,
        m,
        payload,
        BoxHeader::LEAF,
        BoxHeader::SIBLING,
        to,
        b,
    );
}

// The link of a history page: where the next stands, 0 where there is none.
pub fn link_of(more: bool, to: usize) -> usize
    ensures { result ≡ cond more to 0 }
{
    if more { to } else { 0 }
}

// A history page with its remote frames; the address past them.
fn hist_page(
    a: &mut [u8],
    footing: usize,
    list: &[u8],
    from: Cursor,
    at: usize,
    m: Call,
    r: PageAhead,
) -> usize
    requires footing_le_at { footing ≤ at }
    requires sane { Sane m }
    requires r_value { r ≡ run_of m.limit m.budget (only true (entries list.now (take footing a.old) from)) }
    requires from_in_bounds { at + length (run_page m at r (only true (entries list.now (take footing a.old) from))) ≤ length a.old }
    ensures value { result ≡ page_end m.limit at (these list.now a.old footing true from r.count) }
    ensures a_after { a.new ≡ put a.old at (run_page m at r (only true (entries list.now (take footing a.old) from))) }
{
    let n = r.count;
    let end = at + frames::frame_len(r.size as u32);
    let next = end + r.remote;
    let link = link_of(r.more, next);
    hist_head(a, at, m, link, n, r.size);
    let s = at + BaseHeader::SLOTS_AT;
    old_slots(
        a,
        footing,
        list,
        from,
        n,
        s,
        BaseHeader::HDR_LEN + 4 * n,
        m.limit,
    );
    let q = s + 4 * n;
    old_recs(a, footing, list, from, n, q, m.limit, end);
    let z = at + (BoxHeader::HDR_LEN + r.size);
    spans::zeros(a, z, end - z);
    remote_frames(a, footing, list, true, from, n, end, m, r.remote);
    next
}

// All history pages; the address past them.
pub fn save_hist_regions(
    a: &mut [u8],
    footing: usize,
    list: &[u8],
    from: Cursor,
    at: usize,
    m: Call,
) -> usize
    requires footing_le_at { footing ≤ at }
    requires sane { Sane m }
    requires from_in_bounds { at + length (history_at m at (only true (entries list.now (take footing a.old) from))) ≤ length a.old }
    ensures value { result ≡ history_end_at m at (only true (entries list.now (take footing a.old) from)) }
    ensures a_after { a.new ≡ put a.old at (history_at m at (only true (entries list.now (take footing a.old) from))) }
{
    let mut c = from;
    let mut to = at;
    loop {
        let s = look_ahead(list, &a[..footing], c, m.limit, m.budget);
        if s.run.count == 0 {
            return to;
        }
        to = hist_page(a, footing, list, c, to, m, s.run);
        c = s.rest;
    }
}
