// The overlay lookup: a leaf page in an arena, and one leaf delta in a second buffer. Which of the two answers a probe is found first, as
// a place; then that part is lent on from the buffer that holds it.
#![tactic(auto)]

ghost use Rattle.std.specs.Prelude.{◌≡◌};
ghost use Rattle.frames.specs.Layout.{Inside};
ghost use Rattle.search_head.specs.Head.{head_at};
ghost use Rattle.overlay.specs.Overlay.{is_probe, page_value, delta_value, laid_by, laid_at};
ghost use Rattle.overlay.specs.Lent.{PartIs, LentIs};

use delta::LeafKey;
use frames::{Addr, Body, Refusal};
use order::Ver;
use pages::Place;
use search_head::Head;
use std::cmp::Ordering;

// Which buffer holds the value and where, none, or why it is refused.
#[derive(Clone, Copy)]
pub enum Laid {
    Delta(Place),
    Page(Place),
    Nothing,
}

// ---- the page's side

// The page's value.
fn page_value(s: &[u8], b: Body, i: usize) -> Result<Laid, Refusal>
    requires { Inside s.now b }
    ensures { result ≡ page_value s.now b i }
{
    let Some(r) = records::rec_at(s, b, i) else {
        return Err(Refusal::BadFrame);
    };
    Ok(Laid::Page(Place {
        at: r.val_at,
        len: r.val_len,
    }))
}

// ---- the delta's side

fn is_probe(t: &[u8], key: Place, probe: &[u8]) -> bool
    ensures { result ≡ is_probe t.now key probe.now }
{
    order::is_equal(order::compare(pages::part_at(t, key), probe))
}

fn delta_value(t: &[u8], d: Addr) -> Result<Laid, Refusal>
    ensures { result ≡ delta_value t.now d }
{
    let p = delta::val(t, d)?;
    Ok(Laid::Delta(p))
}

// ---- both

// The delta's key is or is not the probe (mine), and ver is its version: against the page's head.
fn laid_by(
    s: &[u8],
    a: Addr,
    t: &[u8],
    d: Addr,
    probe: &[u8],
    mine: bool,
    ver: Ver,
) -> Result<Laid, Refusal>
    ensures { result ≡ laid_by s.now t.now d mine ver (head_at s.now a probe.now) }
{
    let head = search_head::head_at(s, a, probe)?;
    match head {
        Head::Nothing { reads: _ } => {
            if mine {
                return delta_value(t, d);
            }
            Ok(Laid::Nothing)
        }
        Head::Is {
            page,
            slot,
            ver: v,
            value: _,
            reads: _,
        } => {
            if mine & !v.newer(ver) {
                return delta_value(t, d);
            }
            page_value(s, page, slot)
        }
    }
}

// Which of the two answers the probe: the leaf page at a of the arena s, or the leaf delta at d of the buffer t.
pub fn answer(s: &[u8], a: Addr, t: &[u8], d: Addr, probe: &[u8]) -> Result<Laid, Refusal>
    ensures { result ≡ laid_at s.now a t.now d probe.now }
{
    let k = delta::key(t, d)?;
    let mine = is_probe(t, k.key, probe);
    laid_by(s, a, t, d, probe, mine, k.ver)
}

// ---- the value, lent on

fn part_in(s: &[u8], p: Place) -> &[u8]
    ensures { PartIs s.entry p result }
{
    if s.len() < p.at {
        return &s[0..0];
    }
    if s.len() - p.at < p.len {
        return &s[0..0];
    }
    &s[p.at..p.at + p.len]
}

// What an answer names: a part of the arena or of the delta's buffer, empty where it names none.
pub fn lent<'r>(s: &'r [u8], t: &'r [u8], l: Result<Laid, Refusal>) -> &'r [u8]
    ensures { LentIs s.entry t.entry l result }
{
    match l {
        Ok(l) => match l {
            Laid::Delta(p) => part_in(t, p),
            Laid::Page(p) => part_in(s, p),
            Laid::Nothing => part_in(s, Place { at: 0, len: 0 }),
        },
        Err(_) => part_in(s, Place { at: 0, len: 0 }),
    }
}

// The lookup where both buffers are lent for one lifetime: the work of the call below.
pub fn overlay_in<'r>(s: &'r [u8], a: Addr, t: &'r [u8], d: Addr, probe: &[u8]) -> &'r [u8]
    ensures { LentIs s.entry t.entry (laid_at s.now a t.now d probe.now) result }
{
    let l = answer(s, a, t, d, probe);
    lent(s, t, l)
}

// The overlay lookup: the value is handed back from the delta's buffer or from the arena, each with its lifetime; `answer` tells which.
pub fn lookup<'r, 'a: 'r, 'b: 'r, 'p>(
    s: &'a [u8],
    a: Addr,
    t: &'b [u8],
    d: Addr,
    probe: &'p [u8],
) -> &'r [u8]
    ensures { LentIs s.entry t.entry (laid_at s.now a t.now d probe.now) result }
{
    let arena: &'r [u8] = s;
    let buffer: &'r [u8] = t;
    overlay_in(arena, a, buffer, d, probe)
}
