// What a leaf build is going to write, measured before anything is written.
#![tactic(auto)]

ghost use Rattle.std.specs.Prelude.{◌≡◌, true, ◌+◌, ◌≤◌, length};
ghost use Rattle.frames.specs.Limits.{max_budget, max_entries, max_key, max_limit, max_value};
ghost use Rattle.build_sources.specs.Source.{entries, only};
ghost use Rattle.build_image.specs.Sizes.{room_of};
ghost use Rattle.build_sweep.specs.Tally.{nothing, with_one, tally_of};
ghost use Rattle.build_sweep.specs.Pages.{pages_of};
ghost use Rattle.build_sweep.specs.Bounds.{Bounded};

use build_sources::{Cursor, EntryAt, EntryRead};
use build_sweep::{Pages, Tally};

// What a leaf build writes: heads, old versions, history pages, remotes and how many of them are old versions', the page's size and its hints'
// room, its address, and the new next free address.
#[derive(Clone, Copy)]
pub struct Totals {
    pub heads: usize,
    pub olds: usize,
    pub pages: usize,
    pub remotes: usize,
    pub aged: usize,
    pub size: usize,
    pub room: usize,
    pub leaf: usize,
    pub end: usize,
}

// ---- one entry

fn with_one(limit: usize, p: usize, t: Tally, i: EntryAt) -> Tally
    requires vlen_le_max_value { i.vlen ≤ max_value }
    requires klen_bound { i.key.plen + i.key.klen ≤ max_key }
    requires bounded { Bounded t max_entries }
    ensures { result ≡ with_one limit p t i.old (i.key.plen + i.key.klen) i.vlen i.kept.0 }
{
    if i.old {
        return build_sweep::with_old(limit, t, i.vlen, i.kept);
    }
    build_sweep::with_head(limit, p, t, i.key.plen + i.key.klen, i.vlen, i.kept)
}

// ---- all entries

pub fn tally_up(list: &[u8], footing: &[u8], from: Cursor, p: usize, limit: usize) -> Tally
    requires { length (entries list.now footing.now from) ≤ max_entries }
    ensures value { result ≡ tally_of limit p nothing (entries list.now footing.now from) }
    ensures bounded { Bounded result max_entries }
{
    let mut c = from;
    let mut t = Tally::NOTHING;
    loop {
        let st = build_sources::next(list, footing, c);
        match st {
            EntryRead::Got(i, d) => {
                t = with_one(limit, p, t, i);
                c = d;
            }
            EntryRead::End => {
                return t;
            }
            EntryRead::Bad => {
                return t;
            }
        }
    }
}

// ---- history pages

// No range to walk: a look ahead says where the pages end.
pub fn count_pages(
    list: &[u8],
    footing: &[u8],
    from: Cursor,
    at: usize,
    limit: usize,
    budget: usize,
) -> Pages
    requires limit_le_max_limit { (limit ≤ max_limit) × (budget ≤ max_budget) }
    requires from_len_bound { length (only true (entries list.now footing.now from)) ≤ max_entries }
    requires at_bound { at ≤ 9223372036854775807 }
    ensures value { result ≡ pages_of limit budget 0 at (only true (entries list.now footing.now from)) }
    ensures end_bound { (result.end ≤ at + 12890734500) × (result.count ≤ max_entries) }
{
    let mut c = from;
    let mut n: usize = 0;
    let mut to = at;
    loop {
        let s = build_history::look_ahead(list, footing, c, limit, budget);
        if s.run.count == 0 {
            return Pages { count: n, end: to };
        }
        n += 1;
        to += frames::frame_len(s.run.size as u32) + s.run.remote;
        c = s.rest;
    }
}

// The room of a page's hints.
pub fn room_of(pages: usize, remotes: usize) -> usize
    requires { (pages ≤ max_entries) × (remotes ≤ max_entries) }
    ensures { result ≡ room_of pages remotes }
{
    if pages + remotes == 0 {
        return 0;
    }
    8 + 8 * pages + 8 * remotes
}
