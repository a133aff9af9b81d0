// Looking ahead over pages: the history page that comes next, of the old versions that are left of a run and of those of the heads that follow in sound leaves.
#![tactic(auto)]

ghost use Rattle.std.specs.Prelude.{◌≡◌, ◌-◌, ◌≤◌, ◌<◌};
ghost use Rattle.frames.specs.Limits.{max_budget, max_limit};
ghost use Rattle.law_rows.specs.Rows.{leaf_entries};
ghost use Rattle.build_rows.specs.Judged.{Judged, Runs};
ghost use Rattle.build_rows.specs.Hand.{Holds, Opens};
ghost use Rattle.build_page_ahead.specs.Filled.{filled};
ghost use Rattle.build_page_ahead.specs.Answers.{Ready, FilledBy, Follow, AheadBy};

use build_history::PageAhead;
use build_rows::Hand;
use frames::{Addr, BaseHeader, Body};
use values::Val;

// The heads that follow: from i on in one page, then all of another.
#[derive(Clone, Copy)]
pub struct Rest {
    pub body: Body,
    pub i: usize,
    pub end: usize,
    pub then: Body,
    pub n: usize,
}

// A history page that fills up, and the page in hand that it is filled from.
#[derive(Clone, Copy)]
pub struct Filling {
    pub run: PageAhead,
    pub hand: Hand,
}

// With a run of old versions.
fn fill_run(
    s: &[u8],
    page: Addr,
    first: usize,
    count: u32,
    limit: usize,
    budget: usize,
    from: Filling,
) -> Filling
    requires limit_le_max_limit { (limit ≤ max_limit) × (budget ≤ max_budget) }
    requires runs { Runs s.now count page first }
    requires opens { 0 < count → Opens s.now page }
    requires ready { Ready s.now from }
    ensures ready_2 { Ready s.now result }
    ensures filled_by { FilledBy s.now limit budget from.run count page first result.run }
{
    let was = from.run;
    if was.more | (count == 0) {
        return from;
    }
    let mut n = was.count;
    let mut t = was.size;
    let mut f = was.remote;
    let mut hand = build_rows::hand_at(s, page, from.hand);
    let mut slot = first;
    for _ in 0..count {
        let q = build_rows::spot_at(s, hand, slot);
        let d = q.hand;
        let r = build_rows::old_here(s, d, q.slot);
        let v = r.bytes;
        let c = 12 + Val::calc_size(false, limit, v.len as u32) + 4;
        if !build_paging::takes(budget, n, t, c) {
            return Filling {
                run: PageAhead {
                    count: n,
                    size: t,
                    remote: f,
                    more: true,
                },
                hand: d,
            };
        }
        let kept = v.remote;
        n += 1;
        t += c;
        f += build_image::remote_len(limit, v.len, kept);
        hand = d;
        slot = q.slot + 1;
    }
    Filling {
        run: PageAhead {
            count: n,
            size: t,
            remote: f,
            more: false,
        },
        hand,
    }
}

// With the old versions of heads.
fn fill_page(
    s: &[u8],
    b: Body,
    from: usize,
    end: usize,
    limit: usize,
    budget: usize,
    begun: Filling,
) -> Filling
    requires limit_le_max_limit { (limit ≤ max_limit) × (budget ≤ max_budget) }
    requires judged { Judged s.now b 0 }
    requires end_le_elems { end ≤ b.elems }
    requires ready { Ready s.now begun }
    ensures ready_2 { Ready s.now result }
    ensures run_value { result.run ≡ filled limit budget begun.run (leaf_entries s.now b (end - from) from) }
{
    let mut x = begun;
    for i in from..end {
        if x.run.more {
            return x;
        }
        let h = build_rows::past_here(s, b, i);
        let page = h.page;
        x = fill_run(s, page, h.slot as usize, h.count, limit, budget, x);
    }
    x
}

// The history page that comes next, of the old versions that are left of a run and of those of the heads that follow.
pub fn ahead(
    s: &[u8],
    hand: Hand,
    slot: usize,
    left: u32,
    rest: Rest,
    limit: usize,
    budget: usize,
) -> PageAhead
    requires limit_le_max_limit { (limit ≤ max_limit) × (budget ≤ max_budget) }
    requires holds { Holds s.now hand }
    requires runs { Runs s.now left hand.page slot }
    requires follow { Follow s.now rest }
    ensures { AheadBy s.now limit budget left hand.page slot rest result }
{
    let none = Filling {
        run: PageAhead {
            count: 0,
            size: BaseHeader::HDR_LEN,
            remote: 0,
            more: false,
        },
        hand,
    };
    let x = fill_run(s, hand.page, slot, left, limit, budget, none);
    let y = fill_page(s, rest.body, rest.i, rest.end, limit, budget, x);
    let z = fill_page(s, rest.then, 0, rest.n, limit, budget, y);
    z.run
}
