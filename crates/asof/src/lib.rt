// A row as of a version: the newest record of a key that is no newer than it, head or history, across linked pages.
#![tactic(auto)]

ghost use Rattle.std.specs.Prelude.{◌≡◌, ◌+◌, ◌<◌, ◌≤◌, ◌^◌, Some};
ghost use Rattle.frames.specs.Layout.{Inside};
ghost use Rattle.walks.specs.Walk.{body_of};
ghost use Rattle.asof.specs.AsOf.{handed_of, old_as_of, old_enter, older_as_of, as_of_at};
ghost use Rattle.asof.specs.InHand.{further_of, Passes, InHands};

use frames::{Addr, BaseHeader, Body, Refusal};
use order::Ver;
use pages::Place;
use records::Rec;
use search_head::Head;
use values::{HistRef, Val};
use walks::{Aged, OldPlace};

// The key's slot in the leaf, the record's own version, the place of its value, and the number of keys that the halving read, as a search
// counts them.
#[derive(Clone, Copy)]
pub enum AsOf {
    Is {
        slot: usize,
        ver: Ver,
        value: Place,
        reads: usize,
    },
    Nothing {
        reads: usize,
    },
}

// The record handed back, whole: a remote is resolved here alone.
fn handed(r: Option<Rec>, slot: usize, ver: Ver, reads: usize) -> Result<AsOf, Refusal>
    ensures { result ≡ handed_of slot ver reads r }
{
    let Some(x) = r else {
        return Err(Refusal::BadFrame);
    };
    Ok(AsOf::Is {
        slot,
        ver,
        value: Place {
            at: x.val_at,
            len: x.val_len,
        },
        reads,
    })
}

// Behind n old versions, on the same page.
fn further(p: OldPlace, n: usize) -> OldPlace
    requires n_bound { p.slot + n < 2 ^ 64 }
    requires n_le_left { n ≤ p.left }
    ensures { result ≡ further_of p n }
{
    OldPlace {
        slot: p.slot + n,
        left: p.left - n,
        ..p
    }
}

// How many of the next old versions are newer than v, as far as they stand in the page in hand: each is passed over by its slot and its version
// alone.
fn newer_in(s: &[u8], b: Body, from: OldPlace, v: Ver) -> usize
    requires { body_of s.now from.page 2 ≡ Some b }
    ensures { Passes s.now v from result }
{
    if BaseHeader::MAX_KEY < b.prefix_len {
        return 0;
    }
    for n in 0..from.left {
        let Some(p) = records::slot_at(s, b, from.slot + n) else {
            return n;
        };
        if b.end - p < 12 {
            return n;
        }
        if !records::ver_at(s, p).newer(v) {
            return n;
        }
    }
    from.left
}

// What the history page in hand comes to: the row's version and its value, or the place where the lookup goes on. Neither is a failure or a lack, so this is
// no Result and no Option.
#[derive(Clone, Copy)]
enum InHand {
    Is(Ver, Place),
    On(OldPlace),
}

// The page is asked for once. A record in the common form is read there; any other is left to the lookup's own loop.
fn in_hand(s: &[u8], from: OldPlace, v: Ver) -> InHand
    ensures { InHands s.now v from result }
{
    let Some(b) = walks::body_of(s, from.page, Body::HISTORY) else {
        return InHand::On(from);
    };
    let here = further(from, newer_in(s, b, from, v));
    if here.left == 0 {
        return InHand::On(here);
    }
    let Some(x) = records::quick_old(s, b, here.slot) else {
        return InHand::On(here);
    };
    let ver = records::ver_at(s, x.ver_at);
    if ver.newer(v) {
        return InHand::On(here);
    }
    InHand::Is(
        ver,
        Place {
            at: x.val_at,
            len: x.val_len,
        },
    )
}

// Of what is left of the history, newest first: the first that is no newer than v.
fn old_as_of(s: &[u8], from: OldPlace, v: Ver, slot: usize, reads: usize) -> Result<AsOf, Refusal>
    ensures { result ≡ old_as_of s.now v slot reads from.left from }
{
    let mut older = from;
    // No range to walk: each turn passes as many as the page in hand tells, and then one more.
    loop {
        match in_hand(s, older, v) {
            InHand::Is(ver, value) => {
                return Ok(AsOf::Is {
                    slot,
                    ver,
                    value,
                    reads,
                });
            }
            InHand::On(here) => {
                let Some(aged) = here.aged(s) else {
                    return Err(Refusal::BadFrame);
                };
                match aged {
                    Aged::Is { ver, slot: i, rest } => {
                        if ver.newer(v) {
                            older = rest;
                        } else {
                            let page = rest.page;
                            return handed(walks::read(s, page, Body::HISTORY, i), slot, ver, reads);
                        }
                    }
                    Aged::End => {
                        return Ok(AsOf::Nothing { reads });
                    }
                }
            }
        }
    }
}

// The history that a head refers to.
fn old_enter(s: &[u8], h: HistRef, v: Ver, slot: usize, reads: usize) -> Result<AsOf, Refusal>
    ensures { result ≡ old_enter s.now v slot reads h }
{
    match walks::enter(s, h, walks::no_older()) {
        Some(older) => old_as_of(s, older, v, slot, reads),
        None => Err(Refusal::BadFrame),
    }
}

// Behind a head that is newer: its value is read for the history alone.
fn older_as_of(
    s: &[u8],
    b: Body,
    at: usize,
    v: Ver,
    slot: usize,
    reads: usize,
) -> Result<AsOf, Refusal>
    requires { Inside s.now b }
    ensures { result ≡ older_as_of s.now v slot reads b at }
{
    let Some(val) = Val::decode_from(&s[..b.end], at, true) else {
        return Err(Refusal::BadFrame);
    };
    match val {
        Val::Inline {
            hist,
            at: _,
            size: _,
            next: _,
        } => old_enter(s, hist, v, slot, reads),
        Val::Remote {
            hist,
            addr: _,
            size: _,
            next: _,
        } => old_enter(s, hist, v, slot, reads),
    }
}

// The newest record of the probe's key in the leaf page at a that is no newer than v. Its value is lent on by `pages::part_at`.
pub fn as_of(s: &[u8], a: Addr, probe: &[u8], v: Ver) -> Result<AsOf, Refusal>
    ensures { result ≡ as_of_at s.now a probe.now v }
{
    let head = search_head::head_at(s, a, probe)?;
    match head {
        Head::Nothing { reads } => Ok(AsOf::Nothing { reads }),
        Head::Is {
            page,
            slot,
            ver,
            value,
            reads,
        } => {
            if ver.newer(v) {
                return older_as_of(s, page, value, v, slot, reads);
            }
            handed(records::rec_at(s, page, slot), slot, ver, reads)
        }
    }
}
