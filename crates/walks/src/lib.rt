// Walks over a page, forward and backward, each head followed by its older versions: by value, a step at a time.
// The headers are judged when the walk is made; a step asks only that the page still lies in the lent arena.
#![tactic(auto)]

ghost use Rattle.std.specs.Prelude.{◌≡◌, ◌+◌, ◌*◌, ◌-◌, ◌≤◌, ◌<◌, ◌^◌, length};
ghost use Rattle.spans.specs.Span.{part_or};
ghost use Rattle.frames.specs.Layout.{base_len};
ghost use Rattle.walks.specs.Turned.{turned_at};
ghost use Rattle.walks.specs.Aged.{key_old, aged_in, aged_at};
ghost use Rattle.walks.specs.Walk.{sheet_of, older_of, older_on, no_older, up_way, fits_in, body_in, body_of, read_at, kind_of_way, up_range, down_range, begun_of, forward_at, backward_at, on_of, behind_of, item_of, next_in, next_old, enter_at, head_step, step_at};

use frames::{Addr, BaseHeader, Body, NULL_ADDR, NULL_PID, PageId, Refusal};
use order::Ver;
use pages::Place;
use records::Rec;
use values::{HistRef, KeyParts};

// A page as a walk carries it: where it stands, its slots, the boundaries behind them, its end.
#[derive(Clone, Copy)]
pub struct Sheet {
    pub at: usize,
    pub elems: usize,
    pub front: usize,
    pub end: usize,
    pub prefix_len: usize,
}

// What is left of a head's history: the page that it stands in, the page linked to, the next slot, how many are left.
#[derive(Clone, Copy)]
pub struct OldPlace {
    pub page: Sheet,
    pub link: Addr,
    pub slot: usize,
    pub left: usize,
}

// A walk: its page, its way, the next head and how many are left; the last head's key rest and what is left of its history.
#[derive(Clone, Copy)]
pub struct Walk {
    pub page: Sheet,
    pub way: usize,
    pub pos: usize,
    pub heads: usize,
    pub key: Place,
    pub older: OldPlace,
}

// A record of a leaf: its places in the arena, its version, its remote frame and the history page that the step entered, or 0.
#[derive(Clone, Copy)]
pub struct Item {
    pub key: Place,
    pub ver: Ver,
    pub value: Place,
    pub remote: Addr,
    pub named: Addr,
}

// A record of an index page: its key rest, and the page that it leads to.
#[derive(Clone, Copy)]
pub struct Branch {
    pub key: Place,
    pub page: PageId,
}

// A record with the walk moved on.
#[derive(Clone, Copy)]
pub enum Step {
    Found(Item, Walk),
    Leads(Branch, Walk),
    End,
}

// ---- beginning

// The positions from begin to end, end not included.
fn up(begin: usize, end: usize, elems: usize) -> Option<(usize, usize)>
    ensures { result ≡ up_range begin end elems }
{
    if elems < end {
        return None;
    }
    Some((begin, spans::less(end, begin)))
}

// The positions from start down to end, both included.
fn down(start: i64, end: i64, elems: usize) -> Option<(usize, usize)>
    ensures { result ≡ down_range start end elems }
{
    if start < end {
        return Some((0, 0));
    }
    if end < 0 {
        return None;
    }
    let from = start as usize;
    if elems <= from {
        return None;
    }
    Some((from, spans::less(from, end as usize) + 1))
}

fn sheet_of(b: Body) -> Sheet
    requires { b.lo_len + b.hi_len < 2 ^ 64 }
    ensures { result ≡ sheet_of b }
{
    Sheet {
        at: b.at,
        elems: b.elems,
        front: b.lo_len + b.hi_len,
        end: b.end,
        prefix_len: b.prefix_len,
    }
}

fn older_on(b: Body, slot: usize, left: usize) -> OldPlace
    requires { b.lo_len + b.hi_len < 2 ^ 64 }
    ensures { result ≡ older_on b slot left }
{
    OldPlace {
        page: sheet_of(b),
        link: b.link,
        slot,
        left,
    }
}

// No history, in no page.
pub fn no_older() -> OldPlace
    ensures { result ≡ no_older }
{
    OldPlace {
        page: Sheet {
            at: 0,
            elems: 0,
            front: 0,
            end: 0,
            prefix_len: 0,
        },
        link: Addr(0),
        slot: 0,
        left: 0,
    }
}

fn walk_over(b: Body, way: usize, r: Option<(usize, usize)>) -> Result<Walk, Refusal>
    requires { b.lo_len + b.hi_len < 2 ^ 64 }
    ensures { result ≡ begun_of b way r }
{
    let Some((pos, heads)) = r else {
        return Err(Refusal::BadFrame);
    };
    Ok(Walk {
        page: sheet_of(b),
        way,
        pos,
        heads,
        key: Place { at: 0, len: 0 },
        older: older_on(b, 0, 0),
    })
}

// The way up a page of this kind.
fn up_way(kind: u8) -> usize
    ensures { result ≡ up_way kind }
{
    if kind == Body::INDEX {
        Walk::INDEX
    } else {
        Walk::UP
    }
}

// A walk over the positions from begin to end of a leaf or index page.
pub fn forward(s: &[u8], a: Addr, begin: usize, end: usize) -> Result<Walk, Refusal>
    ensures { result ≡ forward_at s.now a begin end }
{
    let Some(b) = frames::open_at(s, a) else {
        return Err(Refusal::BadFrame);
    };
    if b.kind == Body::HISTORY {
        return Err(Refusal::BadFrame);
    }
    walk_over(b, up_way(b.kind), up(begin, end, b.elems))
}

// A walk from a signed start down to a signed end, both included, of a leaf.
pub fn backward(s: &[u8], a: Addr, start: i64, end: i64) -> Result<Walk, Refusal>
    ensures { result ≡ backward_at s.now a start end }
{
    let Some(b) = frames::open_at(s, a) else {
        return Err(Refusal::BadFrame);
    };
    if b.kind != Body::LEAF {
        return Err(Refusal::BadFrame);
    }
    walk_over(b, Walk::DOWN, down(start, end, b.elems))
}

// ---- stepping

// Whether a page's slots and boundaries stand before its end, and that in an arena of this length: no sum that could wrap.
fn fits(len: usize, v: Sheet) -> bool
    ensures { result ≡ fits_in len v }
{
    let within = (v.at <= v.end) & (v.end <= len) & (v.prefix_len <= v.front);
    if within {
        let room = v.end - v.at;
        if room / 4 < v.elems {
            return false;
        }
        let rest = room - 4 * v.elems;
        if rest < BaseHeader::HDR_LEN {
            return false;
        }
        return v.front <= rest - BaseHeader::HDR_LEN;
    }
    false
}

fn body_in(v: Sheet, kind: u8) -> Body
    requires { v.at + base_len + 4 * v.elems + v.front < 2 ^ 64 }
    ensures { result ≡ body_in v kind }
{
    Body {
        at: v.at,
        end: v.end,
        tail: v.end,
        elems: v.elems,
        first: v.at + BaseHeader::HDR_LEN + 4 * v.elems + v.front,
        kind,
        prefix_len: v.prefix_len,
        lo_len: v.front,
        hi_len: 0,
        sibling: NULL_PID,
        multi: 0,
        link: NULL_ADDR,
    }
}

// The page that a walk carries, where it still lies in the arena.
pub fn body_of(s: &[u8], v: Sheet, kind: u8) -> Option<Body>
    ensures { result ≡ body_of s.now v kind }
{
    if fits(s.len(), v) {
        return Some(body_in(v, kind));
    }
    None
}

// The record of slot i of a page of this kind that a walk carries.
pub fn read(s: &[u8], v: Sheet, kind: u8, i: usize) -> Option<Rec>
    ensures { result ≡ read_at s.now v kind i }
{
    if fits(s.len(), v) {
        return records::rec_at(s, body_in(v, kind), i);
    }
    None
}

fn kind_of(way: usize) -> u8
    ensures { result ≡ kind_of_way way }
{
    if way == Walk::INDEX {
        Body::INDEX
    } else {
        Body::LEAF
    }
}

// A record's places in the arena, with its version.
fn item_of(s: &[u8], key: Place, r: Rec, named: Addr) -> Item
    requires { r.ver_at + 12 ≤ length s.now }
    ensures { result ≡ item_of s.now key r named }
{
    Item {
        key,
        ver: records::ver_at(s, r.ver_at),
        value: Place {
            at: r.val_at,
            len: r.val_len,
        },
        remote: r.remote,
        named,
    }
}

// Without history the walk's past stays; its page is judged otherwise.
pub fn enter(s: &[u8], h: HistRef, was: OldPlace) -> Option<OldPlace>
    ensures { result ≡ enter_at s.now h was }
{
    if h.count == 0 {
        return Some(was);
    }
    let b = pages::history_at(s, h.page)?;
    let slot = h.slot as usize;
    if slot < b.elems {
        return Some(older_on(b, slot, h.count as usize));
    }
    None
}

impl OldPlace {
    // Behind the old version at the slot.
    fn after(self) -> OldPlace
        requires slot_bound { self.slot + 1 < 2 ^ 64 }
        requires left_nonzero { 0 < self.left }
        ensures { result ≡ older_of self.page self.link (self.slot + 1) (self.left - 1) }
    {
        OldPlace {
            slot: self.slot + 1,
            left: self.left - 1,
            ..self
        }
    }

    // The old version at the slot.
    fn here(self, s: &[u8], key: Place, named: Addr) -> Option<(Item, OldPlace)>
        requires { 0 < self.left }
        ensures { result ≡ next_in s.now key self named }
    {
        let r = read(s, self.page, Body::HISTORY, self.slot)?;
        Some((item_of(s, key, r, named), self.after()))
    }

    // Where the next old version stands: here, or, behind the page's last, first in the page that it links to, which is then named.
    fn turned(self, s: &[u8]) -> Option<(OldPlace, Addr)>
        ensures { result ≡ turned_at s.now self }
    {
        if self.slot != self.page.elems {
            return Some((self, NULL_ADDR));
        }
        let d = pages::history_at(s, self.link)?;
        Some((older_on(d, 0, self.left), self.link))
    }

    // The old version there: what `pages::old_at` reads (`next-old`, proofs/Steps.antt), without judging the headers again.
    fn next(self, s: &[u8], key: Place) -> Option<(Item, OldPlace)>
        requires { 0 < self.left }
        ensures { result ≡ next_old s.now key self }
    {
        let Some((older, named)) = self.turned(s) else {
            return None;
        };
        older.here(s, key, named)
    }
}

impl Walk {
    // A number, since it stands in the C interface's words, where any word is some way.
    pub const UP: usize = 0;

    pub const DOWN: usize = 1;

    pub const INDEX: usize = 2;

    // The walk behind a head: the next position, the head's key and history.
    fn on(self, key: Place, older: OldPlace) -> Walk
        requires pos_bound { self.pos + 1 < 2 ^ 64 }
        requires heads_nonzero { 0 < self.heads }
        ensures { result ≡ on_of self key older }
    {
        Walk {
            pos: spans::onward(self.way == Walk::DOWN, self.pos),
            heads: self.heads - 1,
            key,
            older,
            ..self
        }
    }

    // The walk behind an old version.
    fn behind(self, older: OldPlace) -> Walk
        ensures { result ≡ behind_of self older }
    {
        Walk { older, ..self }
    }

    // The head at the walk's position: on a leaf its history page is entered with it.
    fn head(self, s: &[u8]) -> Result<Step, Refusal>
        requires { 0 < self.heads }
        ensures { result ≡ head_step s.now self }
    {
        let Some(r) = read(s, self.page, kind_of(self.way), self.pos) else {
            return Err(Refusal::BadFrame);
        };
        let key = Place {
            at: r.rest_at,
            len: r.rest_len,
        };
        if self.way == Walk::INDEX {
            let page = PageId(numbers::read_u64(s, r.val_at));
            return Ok(Step::Leads(Branch { key, page }, self.on(key, self.older)));
        }
        let Some(older) = enter(s, r.hist, self.older) else {
            return Err(Refusal::BadFrame);
        };
        Ok(Step::Found(item_of(s, key, r, r.hist.page), self.on(key, older)))
    }

    // The record at the walk, with the walk moved on.
    pub fn step(self, s: &[u8]) -> Result<Step, Refusal>
        ensures { result ≡ step_at s.now self }
    {
        if 0 < self.older.left {
            let Some((item, rest)) = self.older.next(s, self.key) else {
                return Err(Refusal::BadFrame);
            };
            return Ok(Step::Found(item, self.behind(rest)));
        }
        if self.heads != 0 {
            return self.head(s);
        }
        Ok(Step::End)
    }
}

// ---- the versions of a history without their values, for a lookup as of a version

// The next old version by its key alone: its version and slot, and what is left behind it, on the same page; None is a key that cannot be read. The end is
// an answer: an Option of an Option would say it less plainly.
#[derive(Clone, Copy)]
pub enum Aged {
    Is {
        ver: Ver,
        slot: usize,
        rest: OldPlace,
    },
    End,
}

// The key of slot i of a history page that a walk carries.
fn key_old(s: &[u8], v: Sheet, i: usize) -> Option<KeyParts>
    ensures { result ≡ key_old s.now v i }
{
    if fits(s.len(), v) {
        return records::key_at(s, body_in(v, Body::HISTORY), i);
    }
    None
}

impl OldPlace {
    fn aged_here(self, s: &[u8]) -> Option<Aged>
        requires { 0 < self.left }
        ensures { result ≡ aged_in s.now self }
    {
        let k = key_old(s, self.page, self.slot)?;
        Some(Aged::Is {
            ver: records::ver_at(s, k.ver_at),
            slot: self.slot,
            rest: self.after(),
        })
    }

    // The version that the walk would list next: its value stays unread, and so does its remote frame.
    pub fn aged(self, s: &[u8]) -> Option<Aged>
        ensures { result ≡ aged_at s.now self }
    {
        if self.left == 0 {
            return Some(Aged::End);
        }
        let Some((older, _)) = self.turned(s) else {
            return None;
        };
        older.aged_here(s)
    }
}

// ---- parts of the lent arena: the empty part where a place is outside it

// A record's key behind the page's prefix.
pub fn rest_of(s: &[u8], x: Item) -> &[u8]
    ensures { result.now ≡ part_or s.now x.key.at x.key.len }
{
    spans::part_of(s, x.key.at, x.key.len)
}

// A record's value.
pub fn value_of(s: &[u8], x: Item) -> &[u8]
    ensures { result.now ≡ part_or s.now x.value.at x.value.len }
{
    spans::part_of(s, x.value.at, x.value.len)
}

// The key of an index page's record behind the page's prefix.
pub fn branch_rest_of(s: &[u8], x: Branch) -> &[u8]
    ensures { result.now ≡ part_or s.now x.key.at x.key.len }
{
    spans::part_of(s, x.key.at, x.key.len)
}
