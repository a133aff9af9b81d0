// Sources of entries: a record list, an index list, or two pages one behind the other, read by a cursor by value with a step. A pass over
// a source knows the step's equation and the laws that follow from it, never the cursor, so a source that is added here (a part of a
// page, more pages) changes no pass. `list` is the lent slice, `footing` the arena below the next free address.
#![tactic(auto)]

ghost use Rattle.std.specs.Prelude.{◌≡◌, ◌∷◌, ◌++◌, ◌+◌, ◌<◌, length, get_or};
ghost use Rattle.order.specs.Order.{cmp_bytes, starts_with};
ghost use Rattle.order.specs.Bounds.{spanned};
ghost use Rattle.build_sources.specs.Keys.{key_bytes};
ghost use Rattle.build_sources.specs.Lists.{no_walk, list_key, cursor_at, first_of, begun_of, same_key, record_at, index_at, spot_at};
ghost use Rattle.build_sources.specs.Pages.{whole_at, page_first, item_at, walked, turned, pages_next};
ghost use Rattle.build_sources.specs.Source.{list_next, next_of, entry_of, entries, well_formed, wanted, ChosenBy};
ghost use Rattle.build_sources.specs.Judged.{above, risen_of, prefixed};

use frames::{Addr, BaseHeader, NULL_ADDR, NULL_PID, PageId, Refusal};
use order::Ver;
use pages::Place;
use std::cmp::Ordering;
use walks::{OldPlace, Sheet, Step, Walk};

// A key: its first bytes (a page's prefix; none in a list) and its rest, as places of one slice.
#[derive(Clone, Copy)]
pub struct Key {
    pub pat: usize,
    pub plen: usize,
    pub kat: usize,
    pub klen: usize,
}

// Where reading stands: which source, and the key of the entry before; a list's place; a page's walk and prefix, and the page behind.
#[derive(Clone, Copy)]
pub struct Cursor {
    pub source: u8,
    pub seen: bool,
    pub key: Key,
    pub at: usize,
    pub walk: Walk,
    pub pre: Place,
    pub then: Addr,
}

impl Cursor {
    pub const RECORDS: u8 = 0;

    pub const INDEX: u8 = 1;

    pub const PAGES: u8 = 2;
}

// Where an entry lies: below the free address (footing) or in the lent slice. `old` says that its key is that of the entry before.
#[derive(Clone, Copy)]
pub struct EntryAt {
    pub footing: bool,
    pub old: bool,
    pub key: Key,
    pub ver: Ver,
    pub vat: usize,
    pub vlen: usize,
    pub kept: Addr,
    pub page: PageId,
}

// A step: an entry and the cursor past it, the end, or bytes that are no entry. Three ends that each pass asks for: a Result of an Option would need an
// error that says nothing, since its number is 3 in a list and 4 in a page.
#[derive(Clone, Copy)]
pub enum EntryRead {
    Got(EntryAt, Cursor),
    End,
    Bad,
}

// ---- keys

// Two strings in two parts each.
fn compare_joined(p: &[u8], r: &[u8], q: &[u8], s: &[u8]) -> Ordering
    ensures { result ≡ cmp_bytes (p.now ++ r.now) (q.now ++ s.now) }
{
    p.iter().chain(r.iter()).cmp(q.iter().chain(s.iter()))
}

// Two keys, by whole words where neither has a prefix of its own.
fn compare_keys(s: &[u8], a: Key, t: &[u8], b: Key) -> Ordering
    ensures { result ≡ cmp_bytes (key_bytes s.now a) (key_bytes t.now b) }
{
    let p = spans::part_of(s, a.pat, a.plen);
    let r = spans::part_of(s, a.kat, a.klen);
    let q = spans::part_of(t, b.pat, b.plen);
    let u = spans::part_of(t, b.kat, b.klen);
    if p.len() == 0 {
        if q.len() == 0 {
            return order::compare(r, u);
        }
    }
    compare_joined(p, r, q, u)
}

// Whether p and r behind it begin with pre.
fn joined_begins(pre: &[u8], p: &[u8], r: &[u8]) -> bool
    ensures { result ≡ starts_with pre.now (p.now ++ r.now) }
{
    if order::starts_with(p, pre) {
        order::starts_with(&pre[p.len()..], r)
    } else {
        order::starts_with(pre, p)
    }
}

fn begins_in(s: &[u8], k: Key, pre: &[u8]) -> bool
    ensures { result ≡ starts_with pre.now (key_bytes s.now k) }
{
    joined_begins(
        pre,
        spans::part_of(s, k.pat, k.plen),
        spans::part_of(s, k.kat, k.klen),
    )
}

// Whether an entry's key begins with pre.
fn key_begins(list: &[u8], footing: &[u8], i: EntryAt, pre: &[u8]) -> bool
    ensures { result ≡ starts_with pre.now (entry_of list.now footing.now i).key }
{
    if i.footing {
        return begins_in(footing, i.key, pre);
    }
    begins_in(list, i.key, pre)
}

// ---- cursors

// No walk: what a list's cursor carries.
fn no_walk() -> Walk
    ensures { result ≡ no_walk }
{
    let older = walks::no_older();
    Walk {
        page: older.page,
        way: 0,
        pos: 0,
        heads: 0,
        key: Place { at: 0, len: 0 },
        older,
    }
}

// In front of a source's first entry.
fn first_of(source: u8) -> Cursor
    ensures { result ≡ first_of source }
{
    Cursor {
        source,
        seen: false,
        key: Key {
            pat: 0,
            plen: 0,
            kat: 0,
            klen: 0,
        },
        at: 5,
        walk: no_walk(),
        pre: Place { at: 0, len: 0 },
        then: NULL_ADDR,
    }
}

// ---- lists

// The five bytes before a list's entries: version 1, and the count of the bytes that follow.
fn begin(list: &[u8], source: u8) -> Option<Cursor>
    ensures { result ≡ begun_of list.now source }
{
    let n = list.len();
    if n < 5 {
        return None;
    }
    if list[0] != 1 {
        return None;
    }
    if numbers::read_u32_be(list, 1) as usize != n - 5 {
        return None;
    }
    Some(first_of(source))
}

// Opens a record list.
pub fn open_records(list: &[u8]) -> Option<Cursor>
    ensures { result ≡ begun_of list.now 0 }
{
    begin(list, Cursor::RECORDS)
}

// Opens an index list.
pub fn open_index(list: &[u8]) -> Option<Cursor>
    ensures { result ≡ begun_of list.now 1 }
{
    begin(list, Cursor::INDEX)
}

// Whether a key is the one that the cursor carries.
fn same_key(s: &[u8], c: Cursor, k: Key) -> bool
    ensures { result ≡ same_key s.now c k }
{
    if c.seen {
        return order::is_equal(compare_keys(s, c.key, s, k));
    }
    false
}

// The same of a list's key, the key before in numbers: structs handed over in memory would cost more than the comparison.
fn is_same(
    s: &[u8],
    seen: bool,
    pat: usize,
    plen: usize,
    bat: usize,
    blen: usize,
    kat: usize,
    klen: usize,
) -> bool
    ensures { result ≡ same_key s.now (cursor_at 0 seen pat plen bat blen) (list_key kat klen) }
{
    if seen {
        let before = Key {
            pat,
            plen,
            kat: bat,
            klen: blen,
        };
        let k = Key {
            pat: 0,
            plen: 0,
            kat,
            klen,
        };
        return order::is_equal(compare_keys(s, before, s, k));
    }
    false
}

// The entry of a record list at a place, and the place behind it; whether there is a key before, and where, in numbers too.
fn record_at(
    s: &[u8],
    at: usize,
    seen: bool,
    pat: usize,
    plen: usize,
    bat: usize,
    blen: usize,
) -> Option<(EntryAt, usize)>
    ensures { result ≡ record_at s.now (cursor_at at seen pat plen bat blen) }
{
    let n = s.len();
    if n < at {
        return None;
    }
    if n - at < 2 {
        return None;
    }
    let klen = numbers::read_u16_be(s, at) as usize;
    if BaseHeader::MAX_KEY < klen {
        return None;
    }
    if n - (at + 2) < klen + 16 {
        return None;
    }
    let tat = at + 2 + klen;
    let vlen = numbers::read_u32_be(s, tat + 12) as usize;
    if BaseHeader::MAX_VALUE < vlen {
        return None;
    }
    let vat = tat + 16;
    if n - vat < vlen {
        return None;
    }
    let k = Key {
        pat: 0,
        plen: 0,
        kat: at + 2,
        klen,
    };
    let old = is_same(s, seen, pat, plen, bat, blen, at + 2, klen);
    let v = Ver::new(
        numbers::read_u64_be(s, tat),
        numbers::read_u32_be(s, tat + 8),
    );
    Some((
        EntryAt {
            footing: false,
            old,
            key: k,
            ver: v,
            vat,
            vlen,
            kept: NULL_ADDR,
            page: NULL_PID,
        },
        vat + vlen,
    ))
}

// The same of an index list.
fn index_at(s: &[u8], c: Cursor) -> Option<(EntryAt, usize)>
    ensures { result ≡ index_at s.now c }
{
    let n = s.len();
    let at = c.at;
    if n < at {
        return None;
    }
    if n - at < 2 {
        return None;
    }
    let klen = numbers::read_u16_be(s, at) as usize;
    if BaseHeader::MAX_KEY < klen {
        return None;
    }
    if n - (at + 2) < klen + 8 {
        return None;
    }
    let tat = at + 2 + klen;
    let k = Key {
        pat: 0,
        plen: 0,
        kat: at + 2,
        klen,
    };
    let old = same_key(s, c, k);
    let v = Ver::new(0, 0);
    let page = PageId(numbers::read_u64_be(s, tat));
    Some((
        EntryAt {
            footing: false,
            old,
            key: k,
            ver: v,
            vat: 0,
            vlen: 0,
            kept: NULL_ADDR,
            page,
        },
        tat + 8,
    ))
}

fn spot_at(s: &[u8], c: Cursor) -> Option<(EntryAt, usize)>
    ensures { result ≡ spot_at s.now c }
{
    if c.source == Cursor::INDEX {
        return index_at(s, c);
    }
    record_at(
        s, c.at, c.seen, c.key.pat, c.key.plen, c.key.kat, c.key.klen,
    )
}

// The entry of a list at a cursor, and the cursor past it.
fn list_next(list: &[u8], c: Cursor) -> EntryRead
    ensures { result ≡ list_next list.now c }
{
    if list.len() <= c.at {
        return EntryRead::End;
    }
    let Some((i, past)) = spot_at(list, c) else {
        return EntryRead::Bad;
    };
    EntryRead::Got(
        i,
        Cursor {
            seen: true,
            key: i.key,
            at: past,
            ..c
        },
    )
}

// ---- pages below the free address

// A walk over a whole page.
fn whole(footing: &[u8], a: Addr) -> Result<Walk, Refusal>
    ensures { result ≡ whole_at footing.now a }
{
    let Some(b) = frames::open_at(footing, a) else {
        return Err(Refusal::BadFrame);
    };
    walks::forward(footing, a, 0, b.elems)
}

// The cursor in front of a page's first record, with another page behind it or none; the key before stays.
fn page_first(footing: &[u8], c: Cursor, a: Addr, then: Addr) -> Option<Cursor>
    ensures { result ≡ page_first footing.now c a then }
{
    let Ok(v) = whole(footing, a) else {
        return None;
    };
    let Ok(e) = pages::bounds_at(footing, a) else {
        return None;
    };
    Some(Cursor {
        walk: v,
        pre: e.prefix,
        then,
        ..c
    })
}

// Opens two pages, the left one first.
pub fn open_pages(footing: &[u8], left: Addr, right: Addr) -> Option<Cursor>
    ensures { result ≡ page_first footing.now (first_of 2) left right }
{
    page_first(footing, first_of(Cursor::PAGES), left, right)
}

// A walk's record as an entry, with the cursor past it; none where a place lies outside or keeps no length of document 01.
fn item_at(
    footing: &[u8],
    c: Cursor,
    rest: Place,
    ver: Ver,
    value: Place,
    kept: Addr,
    page: PageId,
    v: Walk,
) -> EntryRead
    ensures { result ≡ item_at footing.now c rest ver value kept page v }
{
    let n = footing.len();
    let pre = c.pre;
    if !spans::room(n, pre.at, pre.len) {
        return EntryRead::Bad;
    }
    if !spans::room(n, rest.at, rest.len) {
        return EntryRead::Bad;
    }
    if !spans::room(n, value.at, value.len) {
        return EntryRead::Bad;
    }
    if BaseHeader::MAX_KEY < pre.len + rest.len {
        return EntryRead::Bad;
    }
    if BaseHeader::MAX_VALUE < value.len {
        return EntryRead::Bad;
    }
    let k = Key {
        pat: pre.at,
        plen: pre.len,
        kat: rest.at,
        klen: rest.len,
    };
    let old = same_key(footing, c, k);
    EntryRead::Got(
        EntryAt {
            footing: true,
            old,
            key: k,
            ver,
            vat: value.at,
            vlen: value.len,
            kept,
            page,
        },
        Cursor {
            seen: true,
            key: k,
            walk: v,
            ..c
        },
    )
}

// The next record of the page that a cursor walks; its counts are those of a page.
fn walk_next(footing: &[u8], c: Cursor) -> EntryRead
    ensures { result ≡ walked footing.now c }
{
    let w = c.walk;
    if BaseHeader::MAX_ENTRIES < w.heads {
        return EntryRead::Bad;
    }
    if 4294967295 < w.older.left {
        return EntryRead::Bad;
    }
    let Ok(step) = w.step(footing) else {
        return EntryRead::Bad;
    };
    match step {
        Step::Found(x, v) => { item_at(footing, c, x.key, x.ver, x.value, x.remote, NULL_PID, v) }
        Step::Leads(x, v) => {
            item_at(
                footing,
                c,
                x.key,
                Ver::new(0, 0),
                Place { at: 0, len: 0 },
                NULL_ADDR,
                x.page,
                v,
            )
        }
        Step::End => EntryRead::End,
    }
}

// The first record of the page behind.
fn turn(footing: &[u8], c: Cursor) -> EntryRead
    ensures { result ≡ turned footing.now c }
{
    if c.then.0 == 0 {
        return EntryRead::End;
    }
    let Some(d) = page_first(footing, c, c.then, NULL_ADDR) else {
        return EntryRead::Bad;
    };
    walk_next(footing, d)
}

// The next record of the pages.
fn pages_next(footing: &[u8], c: Cursor) -> EntryRead
    ensures { result ≡ pages_next footing.now c }
{
    let st = walk_next(footing, c);
    match st {
        EntryRead::Got(i, d) => EntryRead::Got(i, d),
        EntryRead::End => turn(footing, c),
        EntryRead::Bad => EntryRead::Bad,
    }
}

// ---- the step

// The entry at a cursor of any source, and the cursor past it.
fn any_next(list: &[u8], footing: &[u8], c: Cursor) -> EntryRead
    ensures { result ≡ next_of list.now footing.now c }
{
    if c.source == Cursor::PAGES {
        return pages_next(footing, c);
    }
    list_next(list, c)
}

// The same walk, field by field: a walk that is only copied goes through memory at every step.
fn apart(w: Walk) -> Walk
    ensures { result ≡ w }
{
    Walk {
        page: Sheet {
            at: w.page.at,
            elems: w.page.elems,
            front: w.page.front,
            end: w.page.end,
            prefix_len: w.page.prefix_len,
        },
        way: w.way,
        pos: w.pos,
        heads: w.heads,
        key: Place {
            at: w.key.at,
            len: w.key.len,
        },
        older: OldPlace {
            page: Sheet {
                at: w.older.page.at,
                elems: w.older.page.elems,
                front: w.older.page.front,
                end: w.older.page.end,
                prefix_len: w.older.page.prefix_len,
            },
            link: Addr(w.older.link.0),
            slot: w.older.slot,
            left: w.older.left,
        },
    }
}

// The same. A record list's step stands here, by itself: a build's passes spend their time in it.
pub fn next(list: &[u8], footing: &[u8], c: Cursor) -> EntryRead
    ensures { result ≡ next_of list.now footing.now c }
{
    if c.source != Cursor::RECORDS {
        return any_next(list, footing, c);
    }
    if list.len() <= c.at {
        return EntryRead::End;
    }
    let Some((i, past)) = record_at(
        list, c.at, c.seen, c.key.pat, c.key.plen, c.key.kat, c.key.klen,
    ) else {
        return EntryRead::Bad;
    };
    EntryRead::Got(
        i,
        Cursor {
            seen: true,
            key: i.key,
            at: past,
            walk: apart(c.walk),
            ..c
        },
    )
}

fn is_wanted(want: bool, old: bool) -> bool
    ensures { result ≡ wanted want old }
{
    want == old
}

// The next old version, or the next head, with the cursor past it.
pub fn next_of(list: &[u8], footing: &[u8], want: bool, from: Cursor) -> Option<(EntryAt, Cursor)>
    ensures { ChosenBy list.now footing.now want from result }
{
    let mut c = from;
    loop {
        let st = next(list, footing, c);
        match st {
            EntryRead::Got(i, d) => {
                if is_wanted(want, i.old) {
                    return Some((i, d));
                }
                c = d;
            }
            EntryRead::End => {
                return None;
            }
            EntryRead::Bad => {
                return None;
            }
        }
    }
}

// ---- judging a whole source

// Whether the entries end where the source ends.
pub fn well(list: &[u8], footing: &[u8], from: Cursor) -> bool
    ensures { result ≡ well_formed list.now footing.now from }
{
    let mut c = from;
    loop {
        let st = next(list, footing, c);
        match st {
            EntryRead::Got(_, d) => {
                c = d;
            }
            EntryRead::End => {
                return true;
            }
            EntryRead::Bad => {
                return false;
            }
        }
    }
}

// The keys of two entries.
fn compare_items(list: &[u8], footing: &[u8], a: EntryAt, b: EntryAt) -> Ordering
    ensures { result ≡ cmp_bytes (entry_of list.now footing.now a).key (entry_of list.now footing.now b).key }
{
    if a.footing {
        if b.footing {
            return compare_keys(footing, a.key, footing, b.key);
        }
        return compare_keys(footing, a.key, list, b.key);
    }
    if b.footing {
        return compare_keys(list, a.key, footing, b.key);
    }
    compare_keys(list, a.key, list, b.key)
}

// Whether an entry is above the one before.
fn is_above(list: &[u8], footing: &[u8], a: EntryAt, b: EntryAt) -> bool
    ensures { result ≡ above (entry_of list.now footing.now a) (entry_of list.now footing.now b) }
{
    match compare_items(list, footing, a, b) {
        Ordering::Less => true,
        Ordering::Equal => a.ver.newer(b.ver),
        Ordering::Greater => false,
    }
}

// A key against x.
fn compare_in(s: &[u8], k: Key, x: &[u8]) -> Ordering
    ensures { result ≡ cmp_bytes (key_bytes s.now k) x.now }
{
    order::compare_joined(
        spans::part_of(s, k.pat, k.plen),
        spans::part_of(s, k.kat, k.klen),
        x,
    )
}

// An entry's key against x.
fn compare_with(list: &[u8], footing: &[u8], i: EntryAt, x: &[u8]) -> Ordering
    ensures { result ≡ cmp_bytes (entry_of list.now footing.now i).key x.now }
{
    if i.footing {
        return compare_in(footing, i.key, x);
    }
    compare_in(list, i.key, x)
}

// Whether keys that rise from one entry's to another's lie between the boundaries: these two decide.
fn ends_in(list: &[u8], footing: &[u8], a: EntryAt, b: EntryAt, lo: &[u8], hi: &[u8]) -> bool
    ensures { result ≡ spanned lo.now hi.now (entry_of list.now footing.now a).key (entry_of list.now footing.now b).key }
{
    let low = compare_with(list, footing, a, lo);
    let high = compare_with(list, footing, b, hi);
    !order::is_less(low) & order::below_by(high, hi)
}

// Whether each entry from a cursor on is above the one before, the first above this one; how many there are, this one too; and whether
// they are bounded. No range to walk: the source says where they end.
fn rises_from(
    list: &[u8],
    footing: &[u8],
    first: EntryAt,
    from: Cursor,
    lo: &[u8],
    hi: &[u8],
) -> Option<(usize, bool)>
    ensures { result ≡ risen_of lo.now hi.now (entry_of list.now footing.now first ∷ entries list.now footing.now from) }
{
    let mut last = first;
    let mut c = from;
    let mut n: usize = 1;
    loop {
        let st = next(list, footing, c);
        match st {
            EntryRead::Got(i, d) => {
                if !is_above(list, footing, last, i) {
                    return None;
                }
                last = i;
                c = d;
                n += 1;
            }
            EntryRead::End => {
                return Some((n, ends_in(list, footing, first, last, lo, hi)));
            }
            EntryRead::Bad => {
                return Some((n, ends_in(list, footing, first, last, lo, hi)));
            }
        }
    }
}

// Whether each entry is above the one before; how many there are; and whether they are bounded.
pub fn rises(
    list: &[u8],
    footing: &[u8],
    from: Cursor,
    lo: &[u8],
    hi: &[u8],
) -> Option<(usize, bool)>
    ensures { result ≡ risen_of lo.now hi.now (entries list.now footing.now from) }
{
    let st = any_next(list, footing, from);
    match st {
        EntryRead::Got(i, d) => rises_from(list, footing, i, d, lo, hi),
        EntryRead::End => Some((0, order::below_by(order::compare(lo, hi), hi))),
        EntryRead::Bad => Some((0, order::below_by(order::compare(lo, hi), hi))),
    }
}

// Whether each key begins with pre.
pub fn begins(list: &[u8], footing: &[u8], from: Cursor, pre: &[u8]) -> bool
    ensures { result ≡ prefixed pre.now (entries list.now footing.now from) }
{
    let mut c = from;
    loop {
        let st = next(list, footing, c);
        match st {
            EntryRead::Got(i, d) => {
                if !key_begins(list, footing, i, pre) {
                    return false;
                }
                c = d;
            }
            EntryRead::End => {
                return true;
            }
            EntryRead::Bad => {
                return true;
            }
        }
    }
}
