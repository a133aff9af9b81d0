// The pen over pages: the entries of two leaves, or of a part of one, written side by side, each kind of byte by a cursor of its own. They are read below
// the next free address of the arena that is written.
#![tactic(auto)]

ghost use Rattle.std.specs.Prelude.{◌≡◌, List, ◌++◌, ℕ, ◌+◌, ◌-◌, ◌≤◌, ◌<◌, length, take, drop};
ghost use Rattle.spans.specs.Span.{put};
ghost use Rattle.build_sources.specs.Source.{olds};
ghost use Rattle.build_image.specs.Image.{val_bytes, old_rec, head_rec, remote_frame_of};
ghost use Rattle.build_pen.specs.Nibs.{drawn, nib_past, Asks, Above};
ghost use Rattle.build_history.specs.Runs.{Sane};
ghost use Rattle.build_pen.specs.Pens.{Turned, RanPast, AllLaid};
ghost use Rattle.law_rows.specs.Rows.{leaf_entries};
ghost use Rattle.build_rows.specs.Judged.{Judged, Runs};
ghost use Rattle.build_rows.specs.Hand.{Holds, Known, Opens};
ghost use Rattle.build_page_ahead.specs.Answers.{Follow};
ghost use Rattle.build_page_pen.specs.Runs.{rest_entries, run_entries, Ready, PartPenned, recs_end, left_of};
ghost use Rattle.build_page_pen.specs.Told.{value_told, old_told, key_told, head_told, ValueBelow, OldBelow, KeyBelow, HeadBelow};

use build_heads::Loc;
use build_image::Call;
use build_page_ahead::Rest;
use build_pen::{Nib, Pen};
use build_rows::{Bytes, Hand, Head, Old};
use frames::{Addr, BaseHeader, Body, BoxHeader};
use values::{HistRef, Val};

// The pen with a page at hand, where an old version is left.
fn turn(
    a: &mut [u8],
    next: usize,
    hand: Hand,
    slot: usize,
    count: u32,
    rest: Rest,
    q: Pen,
    m: Call,
) -> Pen
    requires sane { Sane m }
    requires holds { Holds (take next a.old) hand }
    requires runs { Runs (take next a.old) count hand.page slot }
    requires follow { Follow (take next a.old) rest }
    requires by_index { (key : List ℕ) × Ready next m q (run_entries (take next a.old) key count hand.page slot rest) (length a.old) }
    ensures { (key : List ℕ) → Ready next m q (run_entries (take next a.old) key count hand.page slot rest) (length a.old) → Turned next m (olds (run_entries (take next a.old) key count hand.page slot rest)) a.old q a.new result }
{
    if q.loc.left > 0 {
        return q;
    }
    let r = build_page_ahead::ahead(&a[..next], hand, slot, count, rest, m.limit, m.budget);
    if r.count == 0 {
        return q;
    }
    build_pen::opened(a, q, r, m)
}

// ---- one entry written

// A value with its history reference: its bytes, or the address of its remote frame. The number of bytes stored.
fn put_value(a: &mut [u8], v: Bytes, at: usize, h: HistRef, limit: usize, remote: u64) -> usize
    requires value_below { ValueBelow at v }
    requires v_in_bounds { at + length (val_bytes limit remote h (value_told a.old v 0)) ≤ length a.old }
    ensures value { result ≡ length (val_bytes limit remote h (value_told a.old v 0)) }
    ensures a_after { a.new ≡ put a.old at (val_bytes limit remote h (value_told a.old v 0)) }
{
    if v.len < limit {
        let k = Val::write_front(a, at, h, false, v.len);
        spans::copy_within(a, v.at, at + k, v.len);
        return k + v.len;
    }
    Val::encode_remote(a, at, h, v.len, Addr(remote))
}

// An old version's record; the number of bytes stored.
fn put_old(a: &mut [u8], o: Old, at: usize, limit: usize, remote: u64) -> usize
    requires old_below { OldBelow at o }
    requires o_in_bounds { at + length (old_rec limit remote (old_told a.old o 0)) ≤ length a.old }
    ensures value { result ≡ length (old_rec limit remote (old_told a.old o 0)) }
    ensures a_after { a.new ≡ put a.old at (old_rec limit remote (old_told a.old o 0)) }
{
    let v = records::ver_at(a, o.ver_at);
    let k = values::write_ver(a, at, v);
    let n = put_value(a, o.bytes, at + k, HistRef::NONE, limit, remote);
    k + n
}

// The key of a head without its first p bytes: what its page's prefix has more, then the rest. The number of bytes stored.
pub fn put_rest(a: &mut [u8], b: Body, rest: usize, len: usize, at: usize, p: usize) -> usize
    requires key_below { KeyBelow at b rest len }
    requires p_bound { p ≤ b.prefix_len + len }
    requires p_in_bounds { at + (b.prefix_len + len - p) ≤ length a.old }
    ensures value { result ≡ length (drop p (key_told a.old b rest len)) }
    ensures a_after { a.new ≡ put a.old at (drop p (key_told a.old b rest len)) }
{
    let n = b.prefix_len;
    if n < p {
        let skip = p - n;
        spans::copy_within(a, rest + skip, at, len - skip);
        return len - skip;
    }
    let f = n - p;
    if f == 0 {
        spans::copy_within(a, rest, at, len);
        return len;
    }
    spans::copy_within(a, b.at + BaseHeader::HDR_LEN + 4 * b.elems + p, at, f);
    spans::copy_within(a, rest, at + f, len);
    f + len
}

// A head's record, whose old versions h names; the number of bytes stored.
fn put_head(
    a: &mut [u8],
    b: Body,
    r: Head,
    at: usize,
    p: usize,
    limit: usize,
    remote: u64,
    h: HistRef,
) -> usize
    requires head_below { HeadBelow at b r }
    requires p_bound { p ≤ b.prefix_len + r.rest_len }
    requires r_in_bounds { at + length (head_rec limit p remote h (head_told a.old b r 0)) ≤ length a.old }
    ensures value { result ≡ length (head_rec limit p remote h (head_told a.old b r 0)) }
    ensures a_after { a.new ≡ put a.old at (head_rec limit p remote h (head_told a.old b r 0)) }
{
    let v = records::ver_at(a, r.ver_at);
    let k = values::write_leaf_front(a, at, v, b.prefix_len + r.rest_len - p);
    let n = put_rest(a, b, r.ver_at + 12, r.rest_len, at + k, p);
    let j = put_value(a, r.bytes, at + k + n, h, limit, remote);
    k + n + j
}

// The remote frame of a value, if it takes a new one; the address past it.
fn put_remote(a: &mut [u8], next: usize, v: Bytes, at: usize, m: Call) -> usize
    requires value_below { ValueBelow next v }
    requires next_le_at { next ≤ at }
    requires remote_in_bounds { at + length (remote_frame_of m (value_told (take next a.old) v v.remote.0)) ≤ length a.old }
    ensures value { result ≡ at + length (remote_frame_of m (value_told (take next a.old) v v.remote.0)) }
    ensures a_after { a.new ≡ put a.old at (remote_frame_of m (value_told (take next a.old) v v.remote.0)) }
{
    let n = v.len;
    if n < m.limit {
        return at;
    }
    if v.remote.0 != 0 {
        return at;
    }
    build_history::remote_frame(a, next, b"", true, v.at, n, at, m);
    at + frames::frame_len((8 + n) as u32)
}

// An old version: slot, record and remote frame. base is where its page's offsets count from.
fn pen_old(a: &mut [u8], next: usize, o: Old, q: Nib, base: usize, m: Call) -> Nib
    requires old_below { OldBelow next o }
    requires above { Above next q }
    requires asks { Asks (length a.old) q base m (old_rec m.limit q.remote) (old_told (take next a.old) o o.bytes.remote.0) }
    ensures value { result ≡ nib_past m q (old_rec m.limit q.remote) (old_told (take next a.old) o o.bytes.remote.0) }
    ensures a_after { a.new ≡ drawn m q base (old_rec m.limit q.remote) (old_told (take next a.old) o o.bytes.remote.0) a.old }
{
    numbers::put_u32(a, q.slot, (q.rec - base) as u32);
    let addr = build_image::remote_addr(q.remote, o.bytes.remote);
    let n = put_old(a, o, q.rec, m.limit, addr);
    let g = put_remote(a, next, o.bytes, q.remote, m);
    Nib {
        slot: q.slot + 4,
        rec: q.rec + n,
        remote: g,
    }
}

// A head, whose old versions h names.
fn pen_head(
    a: &mut [u8],
    next: usize,
    b: Body,
    x: Head,
    q: Nib,
    base: usize,
    m: Call,
    p: usize,
    h: HistRef,
) -> Nib
    requires head_below { HeadBelow next b x }
    requires p_bound { p ≤ b.prefix_len + x.rest_len }
    requires above { Above next q }
    requires asks { Asks (length a.old) q base m (head_rec m.limit p q.remote h) (head_told (take next a.old) b x x.bytes.remote.0) }
    ensures value { result ≡ nib_past m q (head_rec m.limit p q.remote h) (head_told (take next a.old) b x x.bytes.remote.0) }
    ensures a_after { a.new ≡ drawn m q base (head_rec m.limit p q.remote h) (head_told (take next a.old) b x x.bytes.remote.0) a.old }
{
    numbers::put_u32(a, q.slot, (q.rec - base) as u32);
    let addr = build_image::remote_addr(q.remote, x.bytes.remote);
    let n = put_head(a, b, x, q.rec, p, m.limit, addr, h);
    let g = put_remote(a, next, x.bytes, q.remote, m);
    Nib {
        slot: q.slot + 4,
        rec: q.rec + n,
        remote: g,
    }
}

// A run of old versions written: the pen and the page in hand behind it, and where the first stands.
#[derive(Clone, Copy)]
pub struct RunPenned {
    pub pen: Pen,
    pub hand: Hand,
    pub page: usize,
    pub slot: usize,
}

// The old versions that a head names.
fn pen_run(
    a: &mut [u8],
    next: usize,
    h: HistRef,
    was: Hand,
    rest: Rest,
    start: Pen,
    m: Call,
) -> RunPenned
    requires sane { Sane m }
    requires known { Known (take next a.old) was }
    requires runs { Runs (take next a.old) h.count h.page h.slot }
    requires opens { 0 < h.count → Opens (take next a.old) h.page }
    requires follow { Follow (take next a.old) rest }
    requires by_index { (key : List ℕ) × Ready next m start (run_entries (take next a.old) key h.count h.page h.slot rest) (length a.old) }
    ensures by_index_2 { (key : List ℕ) → Ready next m start (run_entries (take next a.old) key h.count h.page h.slot rest) (length a.old) → RanPast next m (run_entries (take next a.old) key h.count h.page h.slot rest) a.old start a.new (rest_entries (take next a.old) rest) result.pen h.count result.page result.slot }
    ensures known_2 { Known (take next a.old) result.hand }
{
    let mut q = start;
    if h.count == 0 {
        return RunPenned {
            pen: q,
            hand: was,
            page: 0,
            slot: 0,
        };
    }
    let from = h.page;
    let mut hand = build_rows::hand_at(&a[..next], from, was);
    let mut at = h.slot as usize;
    let mut page: usize = 0;
    let mut slot: usize = 0;
    for done in 0..h.count {
        let x = build_rows::spot_at(&a[..next], hand, at);
        let d = x.hand;
        let o = build_rows::old_here(&a[..next], d, x.slot);
        let r = turn(a, next, d, x.slot, h.count - done, rest, q, m);
        let l = r.loc;
        let n = r.nib;
        let run = done as usize;
        page = build_pen::first_of(run, l.page, page);
        slot = build_pen::first_of(run, l.slot, slot);
        let kept = o.bytes.remote;
        let addr = build_image::remote_addr(n.remote, kept) as usize;
        let e = build_pen::put_hint(a, r.hint, m.limit, addr, o.bytes.len);
        let k = pen_old(a, next, o, n, l.page + BoxHeader::HDR_LEN, m);
        q = Pen {
            loc: Loc {
                page: l.page,
                slot: l.slot + 1,
                left: l.left - 1,
                next: l.next,
            },
            nib: k,
            pages: r.pages,
            hint: e,
        };
        hand = d;
        at = x.slot + 1;
    }
    RunPenned {
        pen: q,
        hand,
        page,
        slot,
    }
}

// Heads written: the pen, where the next head goes, and where its hint does.
#[derive(Clone, Copy)]
pub struct Penned {
    pub pen: Pen,
    pub nib: Nib,
    pub hint: usize,
}

// The heads from..end of a leaf, each with its old versions; n heads of another leaf follow.
fn pen_page(
    a: &mut [u8],
    next: usize,
    b: Body,
    from: usize,
    end: usize,
    then: Body,
    count: usize,
    begun: Penned,
    base: usize,
    m: Call,
    p: usize,
) -> Penned
    requires sane { Sane m }
    requires judged { Judged (take next a.old) b 0 }
    requires judged_2 { Judged (take next a.old) then 0 }
    requires end_le_elems { (end ≤ b.elems) × (count ≤ then.elems) }
    requires all_laid { AllLaid next (length a.old) begun.pen begun.nib begun.hint base m p (leaf_entries (take next a.old) b (end - from) from ++ leaf_entries (take next a.old) then count 0) }
    ensures { PartPenned next base m p a.old begun (leaf_entries (take next a.old) b (end - from) from ++ leaf_entries (take next a.old) then count 0) a.new result (leaf_entries (take next a.old) then count 0) }
{
    let mut q = begun.pen;
    let mut n = begun.nib;
    let mut hint = begun.hint;
    let mut hand = build_rows::no_hand();
    for i in from..end {
        let r = build_rows::head_here(&a[..next], b, i);
        let h = r.hist;
        let rest = Rest {
            body: b,
            i: i + 1,
            end,
            then,
            n: count,
        };
        let x = pen_run(a, next, h, hand, rest, q, m);
        let new = HistRef {
            page: Addr(x.page as u64),
            slot: x.slot as u16,
            count: h.count,
        };
        let kept = r.bytes.remote;
        let addr = build_image::remote_addr(n.remote, kept) as usize;
        hint = build_pen::put_hint(a, hint, m.limit, addr, r.bytes.len);
        n = pen_head(a, next, b, r, n, base, m, p, new);
        q = x.pen;
        hand = x.hand;
    }
    Penned {
        pen: q,
        nib: n,
        hint,
    }
}

// The heads from..end of a leaf and n heads of another, all in all; the address past the heads' records.
pub fn pen_leaves(
    a: &mut [u8],
    next: usize,
    b: Body,
    from: usize,
    end: usize,
    d: Body,
    n: usize,
    x: Penned,
    base: usize,
    m: Call,
    p: usize,
) -> usize
    requires sane { Sane m }
    requires judged { Judged (take next a.old) b 0 × Judged (take next a.old) d 0 }
    requires end_le_elems { (end ≤ b.elems) × (n ≤ d.elems) }
    requires all_laid { AllLaid next (length a.old) x.pen x.nib x.hint base m p (leaf_entries (take next a.old) b (end - from) from ++ leaf_entries (take next a.old) d n 0) }
    ensures value { result ≡ recs_end m p x (leaf_entries (take next a.old) b (end - from) from ++ leaf_entries (take next a.old) d n 0) }
    ensures a_after { a.new ≡ left_of m x base p (leaf_entries (take next a.old) b (end - from) from ++ leaf_entries (take next a.old) d n 0) a.old }
{
    let y = pen_page(a, next, b, from, end, d, n, x, base, m, p);
    let z = pen_page(a, next, d, 0, n, d, 0, y, base, m, p);
    z.nib.rec
}
