// The pen: a record list's entries written side by side, each kind of byte by a cursor of its own, while the list is read once (and its old
// versions once more, page by page, for their sizes).
#![tactic(auto)]

ghost use Rattle.std.specs.Prelude.{◌≡◌, true, false, cond, [], ◌+◌, ◌-◌, ◌≤◌, ◌<◌, length, eqb};
ghost use Rattle.spans.specs.Span.{part, put};
ghost use Rattle.frames.specs.Limits.{max_budget, max_entries, max_limit};
ghost use Rattle.build_sources.specs.Source.{olds};
ghost use Rattle.build_image.specs.Image.{val_bytes, old_rec, head_rec, head_recs, remote_frame_of};
ghost use Rattle.build_history.specs.Runs.{Sane, run_of};
ghost use Rattle.build_heads.specs.Located.{places_at};
ghost use Rattle.build_sweep.specs.Ents.{ver_in};
ghost use Rattle.build_pen.specs.Stretches.{draws, Rising};
ghost use Rattle.build_pen.specs.Places.{list_from, list_behind, Well, Reads, past_of, Inside, entry_in, alike};
ghost use Rattle.build_pen.specs.Nibs.{drawn, nib_past, Asks, hint_of};
ghost use Rattle.build_pen.specs.Pens.{pens_left, Steady, Opens, page_opened, pen_opened, Turned, RanTo, all_left, AllLaid};

use build_heads::Loc;
use build_history::PageAhead;
use build_image::Call;
use frames::{Addr, BaseHeader, BoxHeader, NULL_ADDR};
use order::Ver;
use values::{HistRef, Val};

// A record of a list: where its key stands, and how long its key and its value are.
#[derive(Clone, Copy)]
pub struct RecordAt {
    pub kat: usize,
    pub klen: usize,
    pub vlen: usize,
}

// Where the next slot, record and remote frame stand.
#[derive(Clone, Copy)]
pub struct Nib {
    pub slot: usize,
    pub rec: usize,
    pub remote: usize,
}

// Where the next old version stands, where its slot, record and remote frame do, and where the next hints do: a page's, and a remote's.
#[derive(Clone, Copy)]
pub struct Pen {
    pub loc: Loc,
    pub nib: Nib,
    pub pages: usize,
    pub hint: usize,
}

// A run of old versions written: the pen and the place behind it, how many, and where the first stands.
#[derive(Clone, Copy)]
pub struct Ran {
    pub pen: Pen,
    pub at: usize,
    pub run: usize,
    pub page: usize,
    pub slot: usize,
}

// ---- a record of the list

// The record at a place of a list that is known to end well.
fn record_at(list: &[u8], at: usize) -> RecordAt
    requires well { Well list.now at }
    requires at_in_bounds { at < length list.now }
    ensures { Reads list.now at result }
{
    let k = numbers::read_u16_be(list, at) as usize;
    let v = numbers::read_u32_be(list, at + 2 + k + 12) as usize;
    RecordAt {
        kat: at + 2,
        klen: k,
        vlen: v,
    }
}

// The place behind it.
fn past(i: RecordAt) -> usize
    requires { past_of i ≤ 18446744073709551615 }
    ensures { result ≡ past_of i }
{
    i.kat + i.klen + 16 + i.vlen
}

fn bytes_of(s: &[u8], at: usize, n: usize) -> &[u8]
    requires { at + n ≤ length s.now }
    ensures { result.now ≡ part s.now at n }
{
    let e = at + n;
    &s[at..e]
}

fn ver_in(list: &[u8], at: usize) -> Ver
    requires { at + 12 ≤ length list.now }
    ensures { result ≡ ver_in list.now at }
{
    Ver::new(
        numbers::read_u64_be(list, at),
        numbers::read_u32_be(list, at + 8),
    )
}

// Whether two keys of the list are the same.
fn same_key(list: &[u8], bat: usize, blen: usize, kat: usize, klen: usize) -> bool
    requires { (bat + blen ≤ length list.now) × (kat + klen ≤ length list.now) }
    ensures { result ≡ alike list.now bat blen kat klen }
{
    if blen != klen {
        return false;
    }
    order::is_equal(order::compare(bytes_of(list, bat, blen), bytes_of(list, kat, klen)))
}

// ---- one entry written

// A value with its history reference: its bytes, or the address of its remote frame. The number of bytes stored.
fn put_value(
    a: &mut [u8],
    list: &[u8],
    i: RecordAt,
    at: usize,
    h: HistRef,
    limit: usize,
    remote: usize,
) -> usize
    requires inside { Inside list.now i }
    requires i_in_bounds { at + length (val_bytes limit remote h (entry_in list.now true i)) ≤ length a.old }
    ensures value { result ≡ length (val_bytes limit remote h (entry_in list.now true i)) }
    ensures a_after { a.new ≡ put a.old at (val_bytes limit remote h (entry_in list.now true i)) }
{
    if i.vlen < limit {
        let v = bytes_of(list, i.kat + i.klen + 16, i.vlen);
        return Val::encode_inline(a, at, h, v);
    }
    Val::encode_remote(a, at, h, i.vlen, Addr(remote as u64))
}

// An old version's record; the number of bytes stored.
fn put_old(a: &mut [u8], list: &[u8], i: RecordAt, at: usize, limit: usize, remote: usize) -> usize
    requires inside { Inside list.now i }
    requires i_in_bounds { at + length (old_rec limit remote (entry_in list.now true i)) ≤ length a.old }
    ensures value { result ≡ length (old_rec limit remote (entry_in list.now true i)) }
    ensures a_after { a.new ≡ put a.old at (old_rec limit remote (entry_in list.now true i)) }
{
    let v = ver_in(list, i.kat + i.klen);
    let k = values::write_ver(a, at, v);
    let n = put_value(a, list, i, at + k, HistRef::NONE, limit, remote);
    k + n
}

// A head's record, whose old versions h names; the number of bytes stored.
fn put_head(
    a: &mut [u8],
    list: &[u8],
    i: RecordAt,
    at: usize,
    p: usize,
    limit: usize,
    remote: usize,
    h: HistRef,
) -> usize
    requires inside { Inside list.now i }
    requires p_le_klen { p ≤ i.klen }
    requires i_in_bounds { at + length (head_rec limit p remote h (entry_in list.now false i)) ≤ length a.old }
    ensures value { result ≡ length (head_rec limit p remote h (entry_in list.now false i)) }
    ensures a_after { a.new ≡ put a.old at (head_rec limit p remote h (entry_in list.now false i)) }
{
    let v = ver_in(list, i.kat + i.klen);
    let rest = bytes_of(list, i.kat + p, i.klen - p);
    let k = values::write_leaf_key(a, at, v, rest);
    let n = put_value(a, list, i, at + k, h, limit, remote);
    k + n
}

// The remote frame of a value, if it takes one; the address past it.
fn put_remote(a: &mut [u8], list: &[u8], i: RecordAt, at: usize, m: Call) -> usize
    requires inside { Inside list.now i }
    requires i_in_bounds { at + length (remote_frame_of m (entry_in list.now true i)) ≤ length a.old }
    ensures value { result ≡ at + length (remote_frame_of m (entry_in list.now true i)) }
    ensures a_after { a.new ≡ put a.old at (remote_frame_of m (entry_in list.now true i)) }
{
    let n = i.vlen;
    if n < m.limit {
        return at;
    }
    let v = i.kat + i.klen + 16;
    build_history::remote_frame(a, 0, list, false, v, n, at, m);
    at + frames::frame_len((8 + n) as u32)
}

// The hint of a value of n bytes, if it takes a remote frame; the address past it.
pub fn put_hint(a: &mut [u8], at: usize, limit: usize, remote: usize, n: usize) -> usize
    requires { at + length (hint_of limit remote n) ≤ length a.old }
    ensures value { result ≡ at + length (hint_of limit remote n) }
    ensures a_after { a.new ≡ put a.old at (hint_of limit remote n) }
{
    if n < limit {
        return at;
    }
    numbers::put_u64(a, at, remote as u64);
    at + 8
}

// An old version: slot, record and remote frame. base is where its page's offsets count from.
fn pen_old(a: &mut [u8], list: &[u8], i: RecordAt, q: Nib, base: usize, m: Call) -> Nib
    requires inside { Inside list.now i }
    requires asks { Asks (length a.old) q base m (old_rec m.limit q.remote) (entry_in list.now true i) }
    ensures value { result ≡ nib_past m q (old_rec m.limit q.remote) (entry_in list.now true i) }
    ensures a_after { a.new ≡ drawn m q base (old_rec m.limit q.remote) (entry_in list.now true i) a.old }
{
    numbers::put_u32(a, q.slot, (q.rec - base) as u32);
    let n = put_old(a, list, i, q.rec, m.limit, q.remote);
    let g = put_remote(a, list, i, q.remote, m);
    Nib {
        slot: q.slot + 4,
        rec: q.rec + n,
        remote: g,
    }
}

// A head, whose old versions h names.
fn pen_head(
    a: &mut [u8],
    list: &[u8],
    i: RecordAt,
    q: Nib,
    base: usize,
    m: Call,
    p: usize,
    h: HistRef,
) -> Nib
    requires inside { Inside list.now i }
    requires p_le_klen { p ≤ i.klen }
    requires asks { Asks (length a.old) q base m (head_rec m.limit p q.remote h) (entry_in list.now false i) }
    ensures value { result ≡ nib_past m q (head_rec m.limit p q.remote h) (entry_in list.now false i) }
    ensures a_after { a.new ≡ drawn m q base (head_rec m.limit p q.remote h) (entry_in list.now false i) a.old }
{
    numbers::put_u32(a, q.slot, (q.rec - base) as u32);
    let n = put_head(a, list, i, q.rec, p, m.limit, q.remote, h);
    let g = put_remote(a, list, i, q.remote, m);
    Nib {
        slot: q.slot + 4,
        rec: q.rec + n,
        remote: g,
    }
}

// ---- history pages

// The history page that comes next, of the old versions from a place on, behind an entry with this key.
fn ahead(
    list: &[u8],
    from: usize,
    bat: usize,
    blen: usize,
    limit: usize,
    budget: usize,
) -> PageAhead
    requires limit_le_max_limit { (limit ≤ max_limit) × (budget ≤ max_budget) }
    requires well { Well list.now from }
    requires blen_in_bounds { bat + blen ≤ length list.now }
    ensures { result ≡ run_of limit budget (olds (list_behind list.now from bat blen)) }
{
    let mut at = from;
    let mut kat = bat;
    let mut klen = blen;
    let mut n: usize = 0;
    let mut t: usize = BaseHeader::HDR_LEN;
    let mut f: usize = 0;
    // Each entry says how long it is: no range counts them.
    while at < list.len() {
        let i = record_at(list, at);
        let next = past(i);
        if same_key(list, kat, klen, i.kat, i.klen) {
            let s = 12 + Val::calc_size(false, limit, i.vlen as u32) + 4;
            if !build_paging::takes(budget, n, t, s) {
                return PageAhead {
                    count: n,
                    size: t,
                    remote: f,
                    more: true,
                };
            }
            n += 1;
            t += s;
            f += build_image::remote_len(limit, i.vlen, NULL_ADDR);
            kat = i.kat;
            klen = i.klen;
            at = next;
        } else {
            kat = i.kat;
            klen = i.klen;
            at = next;
        }
    }
    PageAhead {
        count: n,
        size: t,
        remote: f,
        more: false,
    }
}

// The pen at a new history page, which a look ahead told of: its headers, rounding and hint are stored at once.
pub fn opened(a: &mut [u8], q: Pen, r: PageAhead, m: Call) -> Pen
    requires { Opens q r (length a.old) }
    ensures value { result ≡ pen_opened q r }
    ensures a_after { a.new ≡ page_opened m q r a.old }
{
    let page = q.loc.next;
    let end = page + frames::frame_len(r.size as u32);
    let next = end + r.remote;
    let link = build_history::link_of(r.more, next);
    build_history::hist_head(a, page, m, link, r.count, r.size);
    let z = page + (BoxHeader::HDR_LEN + r.size);
    spans::zeros(a, z, end - z);
    numbers::put_u64(a, q.pages, page as u64);
    let t = page + BaseHeader::SLOTS_AT;
    Pen {
        loc: Loc {
            page,
            slot: 0,
            left: r.count,
            next,
        },
        nib: Nib {
            slot: t,
            rec: t + 4 * r.count,
            remote: end,
        },
        pages: q.pages + 8,
        hint: q.hint,
    }
}

// The pen with a page at hand, where an old version is left.
fn turn(a: &mut [u8], list: &[u8], at: usize, kat: usize, klen: usize, q: Pen, m: Call) -> Pen
    requires sane { Sane m }
    requires well { Well list.now at }
    requires klen_in_bounds { kat + klen ≤ length list.now }
    requires steady { Steady m q (olds (list_behind list.now at kat klen)) }
    requires rising { Rising 0 (pens_left m q (olds (list_behind list.now at kat klen)) [] []) (length a.old) }
    ensures { Turned 0 m (olds (list_behind list.now at kat klen)) a.old q a.new result }
{
    if q.loc.left > 0 {
        return q;
    }
    let r = ahead(list, at, kat, klen, m.limit, m.budget);
    if r.count == 0 {
        return q;
    }
    opened(a, q, r, m)
}

// Where a run's first old version stands: x where none has been passed.
pub fn first_of(run: usize, x: usize, y: usize) -> usize
    ensures { result ≡ cond (eqb run 0) x y }
{
    if run == 0 {
        return x;
    }
    y
}

// The old versions in front, written one by one.
fn pen_run(
    a: &mut [u8],
    list: &[u8],
    from: usize,
    bat: usize,
    blen: usize,
    start: Pen,
    m: Call,
) -> Ran
    requires sane { Sane m }
    requires well { Well list.now from }
    requires blen_in_bounds { bat + blen ≤ length list.now }
    requires steady { Steady m start (olds (list_behind list.now from bat blen)) }
    requires rising { Rising 0 (pens_left m start (olds (list_behind list.now from bat blen)) [] []) (length a.old) }
    requires blen_len_bound { length (list_behind list.now from bat blen) ≤ max_entries }
    ensures { RanTo m list.now (list_behind list.now from bat blen) from a.old start a.new result }
{
    let mut at = from;
    let mut kat = bat;
    let mut klen = blen;
    let mut q = start;
    let mut run: usize = 0;
    let mut page: usize = 0;
    let mut slot: usize = 0;
    // Each entry says how long it is: no range counts them.
    while at < list.len() {
        let i = record_at(list, at);
        let next = past(i);
        if !same_key(list, kat, klen, i.kat, i.klen) {
            return Ran {
                pen: q,
                at,
                run,
                page,
                slot,
            };
        }
        let r = turn(a, list, at, kat, klen, q, m);
        page = first_of(run, r.loc.page, page);
        slot = first_of(run, r.loc.slot, slot);
        let h = put_hint(a, r.hint, m.limit, r.nib.remote, i.vlen);
        let k = pen_old(a, list, i, r.nib, r.loc.page + BoxHeader::HDR_LEN, m);
        q = Pen {
            loc: Loc {
                slot: r.loc.slot + 1,
                left: r.loc.left - 1,
                ..r.loc
            },
            nib: k,
            hint: h,
            ..r
        };
        run += 1;
        kat = i.kat;
        klen = i.klen;
        at = next;
    }
    Ran {
        pen: q,
        at,
        run,
        page,
        slot,
    }
}

// ---- all entries

// All entries in one loop: each key's old versions, then its head. The address past the heads' records.
pub fn pen_all(
    a: &mut [u8],
    list: &[u8],
    from: usize,
    start: Pen,
    first: Nib,
    hints: usize,
    base: usize,
    m: Call,
    p: usize,
) -> usize
    requires sane { Sane m }
    requires well { Well list.now from }
    requires all_laid { AllLaid 0 (length a.old) start first hints base m p (list_from list.now from) }
    ensures value { result ≡ first.rec + length (head_recs m.limit p first.remote (places_at m.limit m.budget start.loc (olds (list_from list.now from))) (list_from list.now from)) }
    ensures a_after { a.new ≡ draws a.old (all_left m start first hints base p (list_from list.now from)) }
{
    let mut at = from;
    let mut q = start;
    let mut n = first;
    let mut hint = hints;
    // Each entry says how long it is: no range counts them.
    while at < list.len() {
        let i = record_at(list, at);
        let ran = pen_run(a, list, past(i), i.kat, i.klen, q, m);
        let h = HistRef {
            page: Addr(ran.page as u64),
            slot: ran.slot as u16,
            count: ran.run as u32,
        };
        hint = put_hint(a, hint, m.limit, n.remote, i.vlen);
        n = pen_head(a, list, i, n, base, m, p, h);
        q = ran.pen;
        at = ran.at;
    }
    n.rec
}
