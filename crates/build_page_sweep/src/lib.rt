// A leaf's heads with their old versions judged in one sweep, without writing: each is read once and added up; history pages are cut on the way. The
// leaf was checked, and its keys rise.
#![tactic(auto)]

ghost use Rattle.std.specs.Prelude.{◌-◌, ◌≤◌};
ghost use Rattle.frames.specs.Limits.{max_budget, max_limit};
ghost use Rattle.law_rows.specs.Rows.{leaf_entries};
ghost use Rattle.build_rows.specs.Judged.{Judged};
ghost use Rattle.build_rows.specs.Hand.{Known};
ghost use Rattle.build_page_sweep.specs.Going.{Due};
ghost use Rattle.build_page_sweep.specs.Sweeps.{Run, RunDue, RunSweptBy, PageSweptBy};

use build_rows::Hand;
use build_sweep::{Cut, Tally};
use frames::{BaseHeader, Body};
use values::HistRef;

// A run of old versions summed up, and the page in hand behind it.
#[derive(Clone, Copy)]
pub struct RunSwept {
    pub tally: Tally,
    pub cut: Cut,
    pub hand: Hand,
}

fn sweep_run(
    s: &[u8],
    h: HistRef,
    was: Hand,
    limit: usize,
    budget: usize,
    from: Tally,
    begun: Cut,
) -> RunSwept
    requires limit_le_max_limit { (limit ≤ max_limit) × (budget ≤ max_budget) }
    requires run { Run s.now h from }
    requires known { Known s.now was }
    requires run_due { RunDue s.now limit budget h.count h.page h.slot from begun }
    ensures known_2 { Known s.now result.hand }
    ensures run_swept_by { RunSweptBy s.now limit budget h from begun result.tally result.cut }
{
    let mut t = from;
    let mut g = begun;
    if h.count == 0 {
        return RunSwept {
            tally: t,
            cut: g,
            hand: was,
        };
    }
    let page = h.page;
    let mut hand = build_rows::hand_at(s, page, was);
    let mut slot = h.slot as usize;
    for _ in 0..h.count {
        let q = build_rows::spot_at(s, hand, slot);
        let d = q.hand;
        let r = build_rows::old_here(s, d, q.slot);
        let v = r.bytes;
        let kept = v.remote;
        g = build_sweep::with_cut(limit, budget, g, v.len, kept);
        t = build_sweep::with_old(limit, t, v.len, kept);
        hand = d;
        slot = q.slot + 1;
    }
    RunSwept {
        tally: t,
        cut: g,
        hand,
    }
}

// Sweeps the heads from..end of a leaf, with their old versions; p is the length of the new page's prefix.
pub fn sweep_page(
    s: &[u8],
    b: Body,
    from: usize,
    end: usize,
    p: usize,
    limit: usize,
    budget: usize,
    first: Tally,
    begun: Cut,
) -> Option<(Tally, Cut)>
    requires limit_le_max_limit { (limit ≤ max_limit) × (budget ≤ max_budget) }
    requires judged { Judged s.now b 0 }
    requires end_le_elems { end ≤ b.elems }
    requires due { Due p limit budget (leaf_entries s.now b (end - from) from) first begun }
    ensures { PageSweptBy s.now b from end p limit budget first begun result }
{
    let mut t = first;
    let mut g = begun;
    let mut hand = build_rows::no_hand();
    for i in from..end {
        let r = build_rows::head_here(s, b, i);
        let h = r.hist;
        if BaseHeader::MAX_ENTRIES < t.heads + t.olds + 1 + (h.count as usize) {
            return None;
        }
        let v = r.bytes;
        let kept = v.remote;
        t = build_sweep::with_head(limit, p, t, b.prefix_len + r.rest_len, v.len, kept);
        let x = sweep_run(s, h, hand, limit, budget, t, g);
        t = x.tally;
        g = x.cut;
        hand = x.hand;
    }
    Some((t, g))
}
