// Pages: what a page says, the check that decides whether it says anything, its boundaries, its old versions and its hints.
#![tactic(auto)]

ghost use Rattle.std.specs.Prelude.{◌≡◌, true, ◌+◌, ◌*◌, ◌≤◌, ◌<◌, length};
ghost use Rattle.numbers.specs.Number.{le_at};
ghost use Rattle.frames.specs.Layout.{base_len, Inside};
ghost use Rattle.values.specs.Keys.{ver_in};
ghost use Rattle.records.specs.Records.{rec_at};
ghost use Rattle.pages.specs.Boundaries.{bounds_at, part_in, lo_at, hi_at, prefix_at};
ghost use Rattle.pages.specs.Sound.{in_order, slots_ok, history_at, old_in, old_at, chain_from, entered, head_ok, multi_of, recs_ok, hints_ok};
ghost use Rattle.pages.specs.Hand.{judged_at, Held, Known, TurnedTo};
ghost use Rattle.pages.specs.Meaning.{page_says, page_bounded, meaning, check_of};
ghost use Rattle.pages.specs.HintsAt.{hints_of, history_hints_at, remote_hints_at, hint_in};

use frames::{Addr, BaseHeader, Body, NULL_ADDR, PageId, Refusal};
use order::Ver;
use records::{ChildParts, Rec, ValParts};

// ---- the check

// Whether the key rest at ra rises over the one before it, at la; in a history page and at the first slot any does.
fn in_order(s: &[u8], kind: u8, i: usize, la: usize, ln: usize, ra: usize, rn: usize) -> bool
    requires { (la + ln ≤ length s.now) × (ra + rn ≤ length s.now) }
    ensures { result ≡ in_order s.now kind i la ln ra rn }
{
    if (kind == Body::HISTORY) | (i == 0) {
        return true;
    }
    order::is_less(order::compare(spans::part_of(s, la, ln), spans::part_of(s, ra, rn)))
}

// The record of slot i of an index or a history page: the common old version is read in place.
fn old_or_child(s: &[u8], b: Body, i: usize) -> Option<Rec>
    requires { Inside s.now b }
    ensures { result ≡ rec_at s.now b i }
{
    if b.kind == Body::HISTORY {
        if let Some(r) = records::quick_old(s, b, i) {
            return Some(r);
        }
    }
    records::rec_at(s, b, i)
}

// Whether every slot's record can be read, gapless and in order.
fn slots_ok(s: &[u8], b: Body) -> bool
    requires { Inside s.now b }
    ensures { result ≡ slots_ok s.now b }
{
    let mut want = b.first;
    let mut la = 0;
    let mut ln = 0;
    for i in 0..b.elems {
        let Some(r) = old_or_child(s, b, i) else {
            return false;
        };
        if r.from != want {
            return false;
        }
        if in_order(s, b.kind, i, la, ln, r.rest_at, r.rest_len) {
            want = r.next;
            la = r.rest_at;
            ln = r.rest_len;
        } else {
            return false;
        }
    }
    true
}

// The history page at an address. `s` is lent on anew to the call that is rarely made: handed on as it is, all of it would be copied first, and LLVM reads
// sixteen bytes right behind two stores of eight, which waits.
pub fn history_at(s: &[u8], a: Addr) -> Option<Body>
    ensures { result ≡ history_at s.now a }
{
    if let Some(d) = frames::quick_history(s, a) {
        return Some(d);
    }
    let b = frames::open_at(&s[..], a)?;
    if b.kind != Body::HISTORY {
        return None;
    }
    Some(b)
}

// A history page in hand: its address, where it stands, its slots and its link.
#[derive(Clone, Copy)]
struct Hand {
    page: Addr,
    at: usize,
    elems: usize,
    link: Addr,
}

// The history page at an address, judged whole.
fn judged(s: &[u8], a: Addr) -> Option<Hand>
    ensures { result ≡ judged_at s.now a }
{
    let b = history_at(s, a)?;
    if slots_ok(s, b) {
        return Some(Hand {
            page: a,
            at: b.at,
            elems: b.elems,
            link: b.link,
        });
    }
    None
}

// The same, with a page in hand: as long as pages come in order, each is judged once.
fn in_hand(s: &[u8], a: Addr, hand: Hand) -> Option<Hand>
    requires { Known s.now hand }
    ensures { result ≡ judged_at s.now a }
{
    if (a.0 == hand.page.0) & (a.0 != 0) {
        return Some(hand);
    }
    judged(s, a)
}

// An old version: its page, its slot and its record.
#[derive(Clone, Copy)]
pub struct OldVersion {
    pub page: Addr,
    pub slot: usize,
    pub rec: Rec,
}

fn old_in(s: &[u8], b: Body, a: Addr, i: usize) -> Option<OldVersion>
    requires { Inside s.now b }
    ensures { result ≡ old_in s.now b a i }
{
    let r = records::rec_at(s, b, i)?;
    Some(OldVersion {
        page: a,
        slot: i,
        rec: r,
    })
}

// The old version at a slot of a history page, or, behind its last slot, the first of the page that it links to. A walk reads it from the page that it
// carries (`walks::OldPlace::next`), for speed.
pub fn old_at(s: &[u8], a: Addr, i: usize) -> Option<OldVersion>
    ensures { result ≡ old_at s.now a i }
{
    let b = history_at(s, a)?;
    if i != b.elems {
        return old_in(s, b, a, i);
    }
    let d = history_at(s, b.link)?;
    old_in(s, d, b.link, 0)
}

// A page in hand, and a slot of it.
#[derive(Clone, Copy)]
struct Spot {
    hand: Hand,
    slot: usize,
}

// Where the old version at a slot of the page in hand stands: behind its last slot it is the first of the page that it links to.
fn spot_at(s: &[u8], hand: Hand, i: usize) -> Option<Spot>
    requires held { Held s.now hand }
    requires i_le_elems { i ≤ hand.elems }
    ensures { TurnedTo s.now hand i result }
{
    if i < hand.elems {
        return Some(Spot { hand, slot: i });
    }
    let h = judged(s, hand.link)?;
    Some(Spot { hand: h, slot: 0 })
}

// The version at a slot of the page in hand: the page was judged, so it stands where the slot points.
fn old_ver(s: &[u8], hand: Hand, i: usize) -> Ver
    requires held { Held s.now hand }
    requires i_lt_elems { i < hand.elems }
    ensures { result ≡ ver_in s.now (hand.at + le_at 4 s.now (hand.at + base_len + 4 * i)) }
{
    let n = numbers::read_u32(s, hand.at + BaseHeader::HDR_LEN + 4 * i) as usize;
    records::ver_at(s, hand.at + n)
}

// What a chain says, and the page in hand behind it.
#[derive(Clone, Copy)]
struct Chained {
    ok: bool,
    hand: Hand,
}

// Whether n old versions from a slot of the page in hand on grow older than t, on sound pages.
fn chain(s: &[u8], first: Hand, i: usize, n: u32, t: Ver) -> Chained
    requires held { Held s.now first }
    requires i_le_elems { i ≤ first.elems }
    ensures ok_value { result.ok ≡ chain_from s.now n first.page i t }
    ensures held_2 { Held s.now result.hand }
{
    let mut hand = first;
    let mut slot = i;
    let mut ver = t;
    for _ in 0..n {
        let Some(p) = spot_at(s, hand, slot) else {
            return Chained { ok: false, hand };
        };
        let h = p.hand;
        let v = old_ver(s, h, p.slot);
        if ver.newer(v) {
            ver = v;
        } else {
            return Chained { ok: false, hand };
        }
        hand = h;
        slot = p.slot + 1;
    }
    Chained { ok: true, hand }
}

// Whether a slot is one of a history page's.
pub fn entered_at(s: &[u8], a: Addr, i: usize) -> bool
    ensures { result ≡ entered s.now a i }
{
    let Some(b) = history_at(s, a) else {
        return false;
    };
    i < b.elems
}

// Whether a head's history is sound.
fn head_ok(s: &[u8], r: Rec, hand: Hand) -> Chained
    requires ver_at_in_bounds { r.ver_at + 12 ≤ length s.now }
    requires known { Known s.now hand }
    ensures ok_value { result.ok ≡ head_ok s.now r }
    ensures known_2 { Known s.now result.hand }
{
    let h = r.hist;
    if h.count == 0 {
        return Chained { ok: true, hand };
    }
    let Some(x) = in_hand(s, h.page, hand) else {
        return Chained { ok: false, hand };
    };
    if (h.slot as usize) < x.elems {
        return chain(s, x, h.slot as usize, h.count, records::ver_at(s, r.ver_at));
    }
    Chained { ok: false, hand }
}

fn multi_of(m: u8, count: u32) -> u8
    ensures { result ≡ multi_of m count }
{
    if count == 0 { m } else { 1 }
}

// The head of slot i of a leaf: the common one is read in place. A second text of `records::quick_head`, whose second caller would slow walks.
fn head_at(s: &[u8], b: Body, i: usize) -> Option<Rec>
    requires inside { Inside s.now b }
    requires kind_value { b.kind ≡ 0 }
    ensures { result ≡ rec_at s.now b i }
{
    let p = records::slot_at(s, b, i)?;
    let n = records::quick_key(s, b, p);
    if n != 0 {
        if let Some(val) = records::quick_value(s, b, p + 1 + n) {
            return Some(Rec {
                from: p,
                ver_at: p + 1,
                rest_at: p + 1 + 12,
                rest_len: n - 12,
                hist: val.hist,
                val_at: val.val_at,
                val_len: val.val_len,
                remote: val.remote,
                next: val.next,
            });
        }
    }
    records::head_by(&s[..], b.end, b.prefix_len, p)
}

// Whether a leaf's records are sound, each read once: slots gapless and in order, histories sound, has_multiple_versions exact.
fn leaf_ok(s: &[u8], b: Body) -> bool
    requires inside { Inside s.now b }
    requires kind_value { b.kind ≡ 0 }
    ensures { result ≡ recs_ok s.now b }
{
    let mut want = b.first;
    let mut la = 0;
    let mut ln = 0;
    let mut m: u8 = 0;
    let mut hand = Hand {
        page: NULL_ADDR,
        at: 0,
        elems: 0,
        link: NULL_ADDR,
    };
    for i in 0..b.elems {
        let Some(head) = head_at(s, b, i) else {
            return false;
        };
        if head.from != want {
            return false;
        }
        if !in_order(s, b.kind, i, la, ln, head.rest_at, head.rest_len) {
            return false;
        }
        let h = head_ok(s, head, hand);
        if h.ok {
            let page = h.hand;
            hand = page;
            m = multi_of(m, head.hist.count);
            want = head.next;
            la = head.rest_at;
            ln = head.rest_len;
        } else {
            return false;
        }
    }
    m == b.multi
}

// The same as `in_order`, for speed: two key rests of one length are told apart by two numbers. Large, so it has one caller.
fn rises(s: &[u8], kind: u8, i: usize, la: usize, ln: usize, ra: usize, rn: usize) -> bool
    requires { (la + ln ≤ length s.now) × (ra + rn ≤ length s.now) }
    ensures { result ≡ in_order s.now kind i la ln ra rn }
{
    if ln == rn {
        let e = la + ln;
        let f = ra + rn;
        let p = order_pair::pair_of(&s[la..e], &s[ra..f]);
        if p.x < p.y {
            return true;
        }
    }
    in_order(s, kind, i, la, ln, ra, rn)
}

// Whether an index page's records are sound, each read once: it has no history.
fn index_ok(s: &[u8], b: Body) -> bool
    requires inside { Inside s.now b }
    requires kind_value { b.kind ≡ 1 }
    ensures { result ≡ recs_ok s.now b }
{
    let mut want = b.first;
    let mut la = 0;
    let mut ln = 0;
    for i in 0..b.elems {
        let Some(child) = records::child_at(s, b, i) else {
            return false;
        };
        if child.from != want {
            return false;
        }
        if rises(s, b.kind, i, la, ln, child.rest_at, child.rest_len) {
            want = child.rest_at + child.rest_len + 8;
            la = child.rest_at;
            ln = child.rest_len;
        } else {
            return false;
        }
    }
    true
}

// Whether the records of a leaf or an index page are sound.
fn recs_ok(s: &[u8], b: Body) -> bool
    requires inside { Inside s.now b }
    requires kind_bound { b.kind ≤ 1 }
    ensures { result ≡ recs_ok s.now b }
{
    if b.kind == Body::LEAF {
        return leaf_ok(s, b);
    }
    index_ok(s, b)
}

// Whether the hint counts fit the payload.
fn hints_ok(s: &[u8], b: Body) -> bool
    requires { Inside s.now b }
    ensures { result ≡ hints_ok s.now b }
{
    if b.tail == b.end {
        return true;
    }
    if b.tail < b.end + 4 {
        return false;
    }
    let p = b.end + 4 + 8 * (numbers::read_u32(s, b.end) as usize);
    if b.tail < p + 4 {
        return false;
    }
    p + 4 + 8 * (numbers::read_u32(s, p) as usize) <= b.tail
}

// Whether lo is below hi and each key between them: of keys that rise the first and the last decide.
fn bounded(s: &[u8], b: Body) -> bool
    requires inside { Inside s.now b }
    requires fact { b.kind ≡ 2 → ⊥ }
    requires b_value { slots_ok s.now b ≡ true }
    ensures { result ≡ page_bounded (page_says s.now b) }
{
    let lo_at = b.at + BaseHeader::HDR_LEN + 4 * b.elems;
    let lo = spans::part_of(s, lo_at, b.lo_len);
    let hi = spans::part_of(s, lo_at + b.lo_len, b.hi_len);
    if b.elems == 0 {
        return order::below_by(order::compare(lo, hi), hi);
    }
    let Some(x) = records::rec_at(s, b, 0) else {
        return false;
    };
    let Some(y) = records::rec_at(s, b, b.elems - 1) else {
        return false;
    };
    let p = spans::part_of(s, lo_at, b.prefix_len);
    let low = order::compare_joined(p, spans::part_of(s, x.rest_at, x.rest_len), lo);
    let high = order::compare_joined(p, spans::part_of(s, y.rest_at, y.rest_len), hi);
    !order::is_less(low) & order::below_by(high, hi)
}

// Whether the page at an address, leaf or index, is sound.
pub fn check(s: &[u8], a: Addr) -> Result<(), Refusal>
    ensures { result ≡ check_of (meaning s.now a) }
{
    let Some(b) = frames::open_at(s, a) else {
        return Err(Refusal::BadFrame);
    };
    if b.kind == Body::HISTORY {
        return Err(Refusal::BadFrame);
    }
    if recs_ok(s, b) {
        if hints_ok(s, b) {
            if bounded(s, b) {
                return Ok(());
            }
        }
    }
    Err(Refusal::BadFrame)
}

// ---- boundaries

// A stretch of the arena.
#[derive(Clone, Copy)]
pub struct Place {
    pub at: usize,
    pub len: usize,
}

// Where a page's boundaries and prefix stand, and the page beside it.
#[derive(Clone, Copy)]
pub struct Bounds {
    pub lo: Place,
    pub hi: Place,
    pub prefix: Place,
    pub sibling: PageId,
}

// The boundaries of the leaf or index page at an address. An empty hi is none.
pub fn bounds_at(s: &[u8], a: Addr) -> Result<Bounds, Refusal>
    ensures { result ≡ bounds_at s.now a }
{
    let Some(b) = frames::open_at(s, a) else {
        return Err(Refusal::BadFrame);
    };
    if b.kind == Body::HISTORY {
        return Err(Refusal::BadFrame);
    }
    let lo_at = b.at + BaseHeader::HDR_LEN + 4 * b.elems;
    Ok(Bounds {
        lo: Place {
            at: lo_at,
            len: b.lo_len,
        },
        hi: Place {
            at: lo_at + b.lo_len,
            len: b.hi_len,
        },
        prefix: Place {
            at: lo_at,
            len: b.prefix_len,
        },
        sibling: b.sibling,
    })
}

// The bytes at a place of the lent arena; the empty part where the place is outside it.
pub fn part_at(s: &[u8], p: Place) -> &[u8]
    ensures { result.now ≡ part_in s.now p }
{
    spans::part_of(s, p.at, p.len)
}

// The lower boundary of the leaf or index page at an address, lent on; empty where the page is refused, too.
pub fn lo(s: &[u8], a: Addr) -> &[u8]
    ensures { result.now ≡ lo_at s.now a }
{
    let Ok(b) = bounds_at(s, a) else {
        return &s[..0];
    };
    part_at(s, b.lo)
}

// Its upper boundary; empty where it has none.
pub fn hi(s: &[u8], a: Addr) -> &[u8]
    ensures { result.now ≡ hi_at s.now a }
{
    let Ok(b) = bounds_at(s, a) else {
        return &s[..0];
    };
    part_at(s, b.hi)
}

// The prefix that its keys drop.
pub fn prefix(s: &[u8], a: Addr) -> &[u8]
    ensures { result.now ≡ prefix_at s.now a }
{
    let Ok(b) = bounds_at(s, a) else {
        return &s[..0];
    };
    part_at(s, b.prefix)
}

// ---- hints

// Addresses of frames, one behind the other.
#[derive(Clone, Copy)]
pub struct Hints {
    pub at: usize,
    pub count: usize,
}

// Hints at a place; none where they are 0 in number.
fn hints_of(at: usize, count: usize) -> Result<Option<Hints>, Refusal>
    ensures { result ≡ hints_of at count }
{
    if count == 0 {
        return Ok(None);
    }
    Ok(Some(Hints { at, count }))
}

// The addresses of a leaf page's history pages.
pub fn history_hints(s: &[u8], a: Addr) -> Result<Option<Hints>, Refusal>
    ensures { result ≡ history_hints_at s.now a }
{
    let Some(b) = frames::open_at(s, a) else {
        return Err(Refusal::BadFrame);
    };
    if b.kind != Body::LEAF {
        return Err(Refusal::BadFrame);
    }
    if hints_ok(s, b) {
        if b.tail == b.end {
            return Ok(None);
        }
        return hints_of(b.end + 4, numbers::read_u32(s, b.end) as usize);
    }
    Err(Refusal::BadFrame)
}

// The addresses of the remote frames that a leaf page's values stand in.
pub fn remote_hints(s: &[u8], a: Addr) -> Result<Option<Hints>, Refusal>
    ensures { result ≡ remote_hints_at s.now a }
{
    let Some(b) = frames::open_at(s, a) else {
        return Err(Refusal::BadFrame);
    };
    if b.kind != Body::LEAF {
        return Err(Refusal::BadFrame);
    }
    if hints_ok(s, b) {
        if b.tail == b.end {
            return Ok(None);
        }
        let p = b.end + 4 + 8 * (numbers::read_u32(s, b.end) as usize);
        return hints_of(p + 4, numbers::read_u32(s, p) as usize);
    }
    Err(Refusal::BadFrame)
}

// One of them; none behind the last, and outside the arena.
pub fn hint_at(s: &[u8], h: Hints, k: usize) -> Option<Addr>
    ensures { result ≡ hint_in s.now h k }
{
    if h.count <= k {
        return None;
    }
    if s.len() < h.at {
        return None;
    }
    if (s.len() - h.at) / 8 <= k {
        return None;
    }
    Some(Addr(numbers::read_u64(s, h.at + 8 * k)))
}
