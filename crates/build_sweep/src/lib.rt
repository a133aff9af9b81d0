// A list judged in one sweep, without writing: each entry is read once, set beside the one before, and added up; history pages are cut on the
// way. A list that is refused goes by a second, light sweep, which finds the lowest number.
#![tactic(auto)]

ghost use Rattle.std.specs.Prelude.{◌≡◌, true, false, cond, ◌+◌, ◌≤◌, ◌<◌, length, ltb, eqb};
ghost use Rattle.spans.specs.Span.{part_or};
ghost use Rattle.order.specs.Version.{newer_than};
ghost use Rattle.frames.specs.Limits.{max_budget, max_entries, max_key, max_limit, max_value};
ghost use Rattle.values.specs.Vals.{size_of};
ghost use Rattle.build_image.specs.Sizes.{remote_len};
ghost use Rattle.build_sweep.specs.Tally.{with_old, with_head};
ghost use Rattle.build_sweep.specs.Bounds.{Bounded};
ghost use Rattle.build_sweep.specs.Cuts.{cut_with, closed_of, Slim};
ghost use Rattle.build_sweep.specs.Ents.{ent_at, index_ent_at, order_at, ver_in, way_at};
ghost use Rattle.build_sweep.specs.Swept.{SweptBy, IndexSweptBy, spans_ends};

use frames::{Addr, BaseHeader};
use order::Ver;
use std::cmp::Ordering;
use values::Val;

// What a leaf's size and hint room are made of, summed up entry by entry: `aged` of the remotes are old versions', `after` says that the entry
// before is a head.
#[derive(Clone, Copy)]
pub struct Tally {
    pub heads: usize,
    pub olds: usize,
    pub sums: usize,
    pub counted: usize,
    pub remotes: usize,
    pub aged: usize,
    pub remote: usize,
    pub after: bool,
}

impl Tally {
    // Of no entry.
    pub const NOTHING: Tally = Tally {
        heads: 0,
        olds: 0,
        sums: 0,
        counted: 0,
        remotes: 0,
        aged: 0,
        remote: 0,
        after: false,
    };
}

// History pages: how many, and where they end.
#[derive(Clone, Copy)]
pub struct Pages {
    pub count: usize,
    pub end: usize,
}

// History pages under way: those that are closed, where the next stands, and what it holds.
#[derive(Clone, Copy)]
pub struct Cut {
    pub pages: usize,
    pub to: usize,
    pub count: usize,
    pub size: usize,
    pub remote: usize,
}

impl Cut {
    // No page closed, and an empty one under way.
    pub const NONE: Cut = Cut {
        pages: 0,
        to: 0,
        count: 0,
        size: BaseHeader::HDR_LEN,
        remote: 0,
    };
}

// What an entry is beside the one before.
#[derive(Clone, Copy)]
pub enum Way {
    Head,
    Old,
    Falls,
}

// ---- one entry added up

fn remote_one(limit: usize, n: usize) -> usize
    ensures { result ≡ cond (ltb n limit) 0 1 }
{
    usize::from(limit <= n)
}

fn counted_one(limit: usize, n: usize, kept: Addr) -> usize
    ensures { result ≡ cond (ltb n limit) (cond (eqb kept.0 0) 0 1) 1 }
{
    usize::from((limit <= n) | (kept.0 != 0))
}

fn second(after: bool, limit: usize, n: usize) -> usize
    requires { n ≤ max_value }
    ensures { result ≡ cond after (size_of true limit n) 0 }
{
    if after {
        return Val::calc_size(true, limit, n as u32);
    }
    0
}

pub fn with_old(limit: usize, t: Tally, n: usize, kept: Addr) -> Tally
    requires n_le_max_value { n ≤ max_value }
    requires bounded { Bounded t max_entries }
    ensures { result ≡ with_old limit t n kept.0 }
{
    let far = remote_one(limit, n);
    Tally {
        olds: t.olds + 1,
        sums: t.sums + second(t.after, limit, n),
        counted: t.counted + counted_one(limit, n, kept),
        remotes: t.remotes + far,
        aged: t.aged + far,
        after: false,
        ..t
    }
}

// A key of k bytes, p of them the page's prefix; one that is shorter than the prefix is refused later.
pub fn with_head(limit: usize, p: usize, t: Tally, k: usize, n: usize, kept: Addr) -> Tally
    requires n_le_max_value { n ≤ max_value }
    requires k_le_max_key { k ≤ max_key }
    requires bounded { Bounded t max_entries }
    ensures { result ≡ with_head limit p t k n kept.0 }
{
    let key = values::leaf_key_size(spans::less(k, p) as u16);
    Tally {
        heads: t.heads + 1,
        sums: t.sums + (key + Val::calc_size(false, limit, n as u32)),
        counted: t.counted + counted_one(limit, n, kept),
        remotes: t.remotes + remote_one(limit, n),
        remote: t.remote + build_image::remote_len(limit, n, kept),
        after: true,
        ..t
    }
}

// ---- history pages

// One more old version, with a value of v bytes.
pub fn with_cut(limit: usize, budget: usize, g: Cut, v: usize, kept: Addr) -> Cut
    requires limit_le_max_limit { (limit ≤ max_limit) × (v ≤ max_value) }
    requires slim { Slim g }
    ensures { result ≡ cut_with budget g (12 + size_of false limit v + 4) (remote_len limit v kept.0) }
{
    let s = 12 + Val::calc_size(false, limit, v as u32) + 4;
    let f = build_image::remote_len(limit, v, kept);
    if build_paging::takes(budget, g.count, g.size, s) {
        return Cut {
            count: g.count + 1,
            size: g.size + s,
            remote: g.remote + f,
            ..g
        };
    }
    Cut {
        pages: g.pages + 1,
        to: g.to + frames::frame_len(g.size as u32) + g.remote,
        count: 1,
        size: BaseHeader::HDR_LEN + s,
        remote: f,
    }
}

// The last page is closed.
pub fn closed(g: Cut) -> Pages
    requires { Slim g }
    ensures { result ≡ closed_of g }
{
    if g.count == 0 {
        return Pages {
            count: g.pages,
            end: g.to,
        };
    }
    Pages {
        count: g.pages + 1,
        end: g.to + frames::frame_len(g.size as u32) + g.remote,
    }
}

// ---- an entry of a record list beside the one before

fn ent_at(s: &[u8], at: usize) -> Option<(usize, usize)>
    requires { at ≤ length s.now }
    ensures { result ≡ ent_at s.now at }
{
    let n = s.len() - at;
    if n < 18 {
        return None;
    }
    let klen = numbers::read_u16_be(s, at) as usize;
    if BaseHeader::MAX_KEY < klen {
        return None;
    }
    if n - 18 < klen {
        return None;
    }
    let vlen = numbers::read_u32_be(s, at + 2 + klen + 12) as usize;
    if BaseHeader::MAX_VALUE < vlen {
        return None;
    }
    if n - 18 - klen < vlen {
        return None;
    }
    Some((klen, vlen))
}

// A key that lies in the list.
fn key_of(s: &[u8], at: usize, n: usize) -> &[u8]
    requires { at + n ≤ length s.now }
    ensures { result.now ≡ part_or s.now at n }
{
    let e = at + n;
    &s[at..e]
}

// The key before, if there is one, against this one.
fn order_at(s: &[u8], seen: bool, bat: usize, blen: usize, kat: usize, klen: usize) -> Ordering
    requires { (bat + blen ≤ length s.now) × (kat + klen ≤ length s.now) }
    ensures { result ≡ order_at s.now seen bat blen kat klen }
{
    if seen {
        return order::compare(key_of(s, bat, blen), key_of(s, kat, klen));
    }
    Ordering::Less
}

// Whether the version at x is newer than that at y.
fn is_newer(s: &[u8], x: usize, y: usize) -> bool
    requires { (x + 12 ≤ length s.now) × (y + 12 ≤ length s.now) }
    ensures { result ≡ newer_than (ver_in s.now x) (ver_in s.now y) }
{
    let v = Ver::new(numbers::read_u64_be(s, x), numbers::read_u32_be(s, x + 8));
    let w = Ver::new(numbers::read_u64_be(s, y), numbers::read_u32_be(s, y + 8));
    v.newer(w)
}

// A key that is above the one before is a head's; the same key with an older version is an old version's.
fn way_at(s: &[u8], seen: bool, bat: usize, blen: usize, kat: usize, klen: usize) -> Way
    requires { (bat + blen + 12 ≤ length s.now) × (kat + klen + 12 ≤ length s.now) }
    ensures { result ≡ way_at s.now seen bat blen kat klen }
{
    match order_at(s, seen, bat, blen, kat, klen) {
        Ordering::Less => Way::Head,
        Ordering::Equal => {
            if is_newer(s, bat + blen, kat + klen) {
                return Way::Old;
            }
            Way::Falls
        }
        Ordering::Greater => Way::Falls,
    }
}

// ---- the sweep

// Sweeps a record list whose history pages are to stand from next on; p is the length of the page's prefix.
pub fn sweep_list(
    list: &[u8],
    p: usize,
    next: usize,
    limit: usize,
    budget: usize,
) -> Option<(Tally, Pages, usize, usize)>
    requires limit_le_max_limit { (limit ≤ max_limit) × (budget ≤ max_budget) }
    requires next_bound { next ≤ 9223372036854775807 }
    ensures { SweptBy list.now p next limit budget result }
{
    let n = list.len();
    let mut at: usize = 5;
    let mut seen = false;
    let mut kat: usize = 0;
    let mut klen: usize = 0;
    let mut t = Tally::NOTHING;
    let mut g = Cut {
        to: next,
        ..Cut::NONE
    };
    // Each entry says how long it is: no range counts them.
    while at < n {
        let Some((k, v)) = ent_at(list, at) else {
            return None;
        };
        if BaseHeader::MAX_ENTRIES <= t.heads + t.olds {
            return None;
        }
        let here = at + 2;
        let past = here + k + 16 + v;
        match way_at(list, seen, kat, klen, here, k) {
            Way::Head => {
                t = with_head(limit, p, t, k, v, Addr(0));
                seen = true;
                kat = here;
                klen = k;
                at = past;
            }
            Way::Old => {
                g = with_cut(limit, budget, g, v, Addr(0));
                t = with_old(limit, t, v, Addr(0));
                seen = true;
                kat = here;
                klen = k;
                at = past;
            }
            Way::Falls => {
                return None;
            }
        }
    }
    Some((t, closed(g), kat, klen))
}

// ---- an index list

// An entry of an index list, by the length of its key; it has no value.
fn index_ent(s: &[u8], at: usize) -> Option<(usize, usize)>
    requires { at ≤ length s.now }
    ensures { result ≡ index_ent_at s.now at }
{
    let n = s.len() - at;
    if n < 10 {
        return None;
    }
    let klen = numbers::read_u16_be(s, at) as usize;
    if BaseHeader::MAX_KEY < klen {
        return None;
    }
    if n - 10 < klen {
        return None;
    }
    Some((klen, 0))
}

// Sweeps an index list; p is the length of the page's prefix.
pub fn sweep_index(list: &[u8], p: usize) -> Option<(usize, usize, usize, usize)>
    ensures { IndexSweptBy list.now p result }
{
    let len = list.len();
    let mut at: usize = 5;
    let mut seen = false;
    let mut kat: usize = 0;
    let mut klen: usize = 0;
    let mut n: usize = 0;
    let mut sums: usize = 0;
    // Each entry says how long it is: no range counts them.
    while at < len {
        let Some((k, _)) = index_ent(list, at) else {
            return None;
        };
        if BaseHeader::MAX_ENTRIES <= n {
            return None;
        }
        let here = at + 2;
        if !order::is_less(order_at(list, seen, kat, klen, here, k)) {
            return None;
        }
        sums += values::index_key_size(spans::less(k, p) as u16) + 8;
        n += 1;
        seen = true;
        kat = here;
        klen = k;
        at = here + k + 8;
    }
    Some((n, sums, kat, klen))
}

// ---- between the boundaries

// Whether the boundaries span the first and the last key of a list of n entries, the last key at kat: of keys that rise these two decide.
pub fn spans_ends(list: &[u8], n: usize, kat: usize, klen: usize, lo: &[u8], hi: &[u8]) -> bool
    requires { (n ≡ 0 → ⊥) → 7 ≤ length list.now }
    ensures { result ≡ spans_ends list.now n kat klen lo.now hi.now }
{
    if n == 0 {
        return order::below_by(order::compare(lo, hi), hi);
    }
    let k = numbers::read_u16_be(list, 5) as usize;
    let low = order::compare(spans::part_of(list, 7, k), lo);
    let high = order::compare(spans::part_of(list, kat, klen), hi);
    !order::is_less(low) & order::below_by(high, hi)
}
