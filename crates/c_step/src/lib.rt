// One step of a walk in a caller's words, for ct_step: the common record is read in place and only the words that change are stored; any other step
// goes by the walk's own.
#![tactic(auto)]

ghost use Rattle.std.specs.Prelude.{◌≡◌, ◌<◌, ◌≤◌, length, Some};
ghost use Rattle.records.specs.declared.Rec.{Rec};
ghost use Rattle.c_words.specs.Words.{walk_in};
ghost use Rattle.c_steps.specs.Turns.{Ahead};
ghost use Rattle.c_step.specs.OneStep.{Stepped, Takes, Enters};

use frames::{Body, NULL_ADDR};
use pages::Place;
use records::{Rec, ValParts};
use values::HistRef;
use walks::{OldPlace, Step, Walk};

// The old version at the walk: whether it was read.
fn step_old(s: &[u8], w: Walk, walk: &mut [u64], out: &mut [u64]) -> bool
    requires w_value { w ≡ walk_in walk.old }
    requires left_nonzero { 0 < w.older.left }
    requires in_bounds { 18 ≤ length walk.old }
    requires in_bounds_2 { 9 ≤ length out.old }
    ensures { Takes s.now walk.old out.old result walk.new out.new }
{
    let older = w.older;
    let Some(b) = walks::body_of(s, older.page, Body::HISTORY) else {
        return false;
    };
    let Some(r) = records::quick_old(s, b, older.slot) else {
        return false;
    };
    c_steps::tell_rec(s, out, 0, w.key, r, NULL_ADDR);
    c_words::put_older(walk, older.slot + 1, older.left - 1);
    true
}

// The head at the walk, in the common form: a second text of `records::quick_head`, whose other call would no longer be inlined.
fn head_read(s: &[u8], w: Walk) -> Option<Rec>
    requires { w.older.left ≡ 0 }
    ensures { (r : Rec) → result ≡ Some r → Ahead s.now w r }
{
    if w.heads == 0 {
        return None;
    }
    if w.way == Walk::INDEX {
        return None;
    }
    let b = walks::body_of(s, w.page, Body::LEAF)?;
    let p = records::slot_at(s, b, w.pos)?;
    let n = records::quick_key(s, b, p);
    if n == 0 {
        return None;
    }
    let val = records::quick_value(s, b, p + 1 + n)?;
    Some(Rec {
        from: p,
        ver_at: p + 1,
        rest_at: p + 1 + 12,
        rest_len: n - 12,
        hist: val.hist,
        val_at: val.val_at,
        val_len: val.val_len,
        remote: val.remote,
        next: val.next,
    })
}

// The history behind a head: whether its page was entered, its words then stored. Without history none of them changes.
fn enter_in(s: &[u8], h: HistRef, was: OldPlace, walk: &mut [u64]) -> bool
    requires was_value { was ≡ (walk_in walk.old).older }
    requires in_bounds { 18 ≤ length walk.old }
    ensures { Enters s.now h walk.old result walk.new }
{
    if h.count == 0 {
        return true;
    }
    let Some(older) = walks::enter(s, h, was) else {
        return false;
    };
    c_words::put_entered(walk, older);
    true
}

// The head at the walk: whether it was read.
fn step_head(s: &[u8], w: Walk, walk: &mut [u64], out: &mut [u64]) -> bool
    requires w_value { w ≡ walk_in walk.old }
    requires left_value { w.older.left ≡ 0 }
    requires in_bounds { 18 ≤ length walk.old }
    requires in_bounds_2 { 9 ≤ length out.old }
    ensures { Takes s.now walk.old out.old result walk.new out.new }
{
    let Some(r) = head_read(s, w) else {
        return false;
    };
    if enter_in(s, r.hist, w.older, walk) {
        let key = Place {
            at: r.rest_at,
            len: r.rest_len,
        };
        c_steps::tell_rec(s, out, 0, key, r, r.hist.page);
        c_words::put_on(
            walk,
            spans::onward(w.way == Walk::DOWN, w.pos),
            w.heads - 1,
            key,
        );
        return true;
    }
    false
}

// Any step, by the walk's own.
fn step_any(s: &[u8], walk: &mut [u64], out: &mut [u64]) -> u32
    ensures { Stepped s.now walk.old out.old result walk.new out.new }
{
    let w = c_words::walk_in(&walk[..]);
    match w.step(s) {
        Ok(step) => match step {
            Step::Found(x, v) => {
                c_words::store_item(out, 0, x);
                c_words::store_walk(walk, v);
                0
            }
            Step::Leads(x, v) => {
                c_words::store_branch(out, 0, x);
                c_words::store_walk(walk, v);
                0
            }
            Step::End => {
                c_words::store_end(out);
                0
            }
        },
        Err(r) => c_words::no(r),
    }
}

// One step of the walk in a caller's words. `step_any` has several call sites, so that its walk and its stack stay out of the short ways.
pub fn step(s: &[u8], walk: &mut [u64], out: &mut [u64]) -> u32
    ensures { Stepped s.now walk.old out.old result walk.new out.new }
{
    if walk.len() < 18 {
        return step_any(s, walk, out);
    }
    if out.len() < 9 {
        return step_any(s, walk, out);
    }
    let w = c_words::walk_in(&walk[..]);
    if 0 < w.older.left {
        if step_old(s, w, walk, out) {
            return 0;
        }
        return step_any(s, walk, out);
    }
    if step_head(s, w, walk, out) {
        return 0;
    }
    step_any(s, walk, out)
}
