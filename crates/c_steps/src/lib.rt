// Many steps of a walk, their records told in lent words: the loop of ct_steps. The common record is read in place (records::quick_head,
// quick_old), and a history page that the loop has judged is not judged again; every other record is left to the walk's own step.
#![tactic(auto)]

ghost use Rattle.std.specs.Prelude.{◌≡◌, [], ◌+◌, ◌*◌, ◌-◌, ◌<◌, ◌≤◌, ◌^◌, length, Some};
ghost use Rattle.spans.specs.Span.{put};
ghost use Rattle.records.specs.declared.Rec.{Rec};
ghost use Rattle.walks.specs.Walk.{item_of};
ghost use Rattle.c_words.specs.Words.{written, item_words};
ghost use Rattle.c_steps.specs.Steps.{run_of, run_words, room_in, run_number, run_walk, run_says};
ghost use Rattle.c_steps.specs.Turns.{Filling, KnownOlder, Reaches, Ahead, Plains, Heads, Quicks, Turns, aged, plain_of, headed_by, same_page};
ghost use Rattle.pages.specs.Boundaries.{place};

use frames::{Addr, Body, NULL_ADDR};
use pages::Place;
use records::Rec;
use values::HistRef;
use walks::{OldPlace, Step, Walk};

// What a run of steps came to: how many records, the number of the refusal that ended it (0 without, as the C interface answers it), and the walk behind the last record.
#[derive(Clone, Copy)]
pub struct Run {
    pub count: usize,
    pub number: u32,
    pub walk: Walk,
}

// Heads without history: how many, where the next head stands, the last one's key; and the next head, read, where it has history.
#[derive(Clone, Copy)]
struct Plain {
    count: usize,
    pos: usize,
    key: Place,
    next: Option<Rec>,
}

// A turn of the loop: how many records, the walk behind them, the history page that is known then; or no record, and the number of the
// refusal, 0 at the end, as the C interface answers it.
#[derive(Clone, Copy)]
enum Turn {
    On(usize, Walk, u64),
    Stop(u32),
}

// A record's nine words from word k on, which the slice has.
pub fn tell_rec(s: &[u8], out: &mut [u64], k: usize, key: Place, r: Rec, named: Addr)
    requires k_in_bounds { k + 9 ≤ length out.old }
    requires ver_at_in_bounds { r.ver_at + 12 ≤ length s.now }
    ensures { out.new ≡ put out.old k (item_words (item_of s.now key r named)) }
{
    let v = records::ver_at(s, r.ver_at);
    c_words::put_nine(
        out,
        k,
        1,
        key.at as u64,
        key.len as u64,
        v.txid,
        v.cmd as u64,
        r.val_at as u64,
        r.val_len as u64,
        r.remote.0,
        named.0,
    );
}

fn least(a: usize, b: usize) -> usize
    ensures upper_bound { result ≤ a }
    ensures upper_bound_2 { result ≤ b }
{
    a.min(b)
}

// Old versions at the walk, as long as they stand in its history page in the common form: how many. At most as many as fit into the slice.
fn olds(s: &[u8], w: Walk, out: &mut [u64], first: usize, room: usize, fit: usize) -> usize
    requires { (fit ≤ room) × (9 * fit ≤ length out.old - first) }
    ensures upper_bound { result ≤ w.older.left }
    ensures result_bound { 0 < result → w.older.slot + result ≤ w.older.page.elems }
    ensures out_unchanged { result ≡ 0 → out.new ≡ out.old }
    ensures filling { Filling s.now room first w out.old (aged w result) (first + 9 * result) result out.new }
{
    let page = w.older.page;
    if page.elems < w.older.slot {
        return 0;
    }
    let Some(b) = walks::body_of(s, page, Body::HISTORY) else {
        return 0;
    };
    let most = least(fit, w.older.left);
    let mut at: usize = first;
    for n in 0..most {
        let Some(r) = records::quick_old(s, b, w.older.slot + n) else {
            return n;
        };
        let key = w.key;
        tell_rec(s, out, at, key, r, NULL_ADDR);
        at += 9;
    }
    most
}

// The walk behind n old versions.
fn age(w: Walk, n: usize) -> Walk
    requires n_bound { w.older.slot + n < 2 ^ 64 }
    requires n_le_left { n ≤ w.older.left }
    ensures { result ≡ aged w n }
{
    Walk {
        older: OldPlace {
            slot: w.older.slot + n,
            left: w.older.left - n,
            ..w.older
        },
        ..w
    }
}

// The history behind a head, its page entered: not judged where it is the known one, in which the walk's past stands.
fn reach(s: &[u8], h: HistRef, was: OldPlace, known: u64) -> Option<(OldPlace, u64)>
    requires { KnownOlder s.now known was }
    ensures { Reaches s.now h was result }
{
    if h.count == 0 {
        return Some((was, known));
    }
    let slot = h.slot as usize;
    if known != 0 {
        if h.page.0 == known {
            if slot < was.page.elems {
                return Some((
                    OldPlace {
                        slot,
                        left: h.count as usize,
                        ..was
                    },
                    known,
                ));
            }
        }
    }
    let older = walks::enter(s, h, was)?;
    Some((older, h.page.0))
}

// What the heads below come to.
fn heads_read(count: usize, pos: usize, at: usize, len: usize, next: Option<Rec>) -> Plain
    ensures { result ≡ plain_of count pos (place at len) next }
{
    Plain {
        count,
        pos,
        key: Place { at, len },
        next,
    }
}

// Heads at the walk, as long as they are in the common form and without history, and fit into the slice.
fn plains(s: &[u8], w: Walk, out: &mut [u64], first: usize, room: usize, fit: usize) -> Plain
    requires fit_le_room { (fit ≤ room) × (9 * fit ≤ length out.old - first) }
    requires left_value { w.older.left ≡ 0 }
    ensures plains { Plains s.now room first w out.old result out.new }
    ensures count_lt_fit { (r : Rec) → result.next ≡ Some r → result.count < fit }
{
    let page = w.page;
    if w.way == Walk::INDEX {
        return heads_read(0, w.pos, w.key.at, w.key.len, None);
    }
    let Some(b) = walks::body_of(s, page, Body::LEAF) else {
        return heads_read(0, w.pos, w.key.at, w.key.len, None);
    };
    let most = least(fit, w.heads);
    let mut at: usize = first;
    let mut pos: usize = w.pos;
    let mut key_at: usize = w.key.at;
    let mut key_len: usize = w.key.len;
    for n in 0..most {
        let Some(r) = records::quick_head(s, b, pos) else {
            return heads_read(n, pos, key_at, key_len, None);
        };
        if r.hist.count != 0 {
            return heads_read(n, pos, key_at, key_len, Some(r));
        }
        key_at = r.rest_at;
        key_len = r.rest_len;
        tell_rec(
            s,
            out,
            at,
            Place {
                at: key_at,
                len: key_len,
            },
            r,
            NULL_ADDR,
        );
        pos = spans::onward(w.way == Walk::DOWN, pos);
        at += 9;
    }
    heads_read(most, pos, key_at, key_len, None)
}

// The walk behind heads without history.
fn headed(w: Walk, x: Plain) -> Walk
    requires { x.count ≤ w.heads }
    ensures { result ≡ headed_by w x }
{
    Walk {
        pos: x.pos,
        heads: w.heads - x.count,
        key: x.key,
        ..w
    }
}

// The head at the walk, which has been read, and the walk behind it.
fn behind(s: &[u8], w: Walk, known: u64, r: Rec) -> Option<(Rec, Walk, u64)>
    requires known_older { KnownOlder s.now known w.older }
    requires ahead { Ahead s.now w r }
    ensures { Heads s.now w result }
{
    let Some((older, seen)) = reach(s, r.hist, w.older, known) else {
        return None;
    };
    Some((
        r,
        Walk {
            pos: spans::onward(w.way == Walk::DOWN, w.pos),
            heads: w.heads - 1,
            key: Place {
                at: r.rest_at,
                len: r.rest_len,
            },
            older,
            ..w
        },
        seen,
    ))
}

// A step's walk, with the page and the way that no step changes: so that the loop keeps them.
fn on_page(w: Walk, v: Walk) -> Walk
    ensures { result ≡ same_page w v }
{
    Walk {
        page: w.page,
        way: w.way,
        ..v
    }
}

// Any record, by the walk's own step.
fn any(s: &[u8], w: Walk, out: &mut [u64], at: usize, room: usize) -> Turn
    requires room_nonzero { 0 < room }
    requires room_bound { at + 9 * room < 2 ^ 64 }
    ensures { Turns s.now room at w out.old result out.new }
{
    match w.step(s) {
        Ok(step) => match step {
            Step::Found(x, v) => {
                c_words::store_item(out, at, x);
                Turn::On(1, on_page(w, v), 0)
            }
            Step::Leads(x, v) => {
                c_words::store_branch(out, at, x);
                Turn::On(1, on_page(w, v), 0)
            }
            Step::End => Turn::Stop(0),
        },
        Err(r) => Turn::Stop(c_words::no(r)),
    }
}

// What the short ways read: the old versions behind a head; or the heads without history and the next head with its own; a stop where they
// read nothing.
fn quick(s: &[u8], w: Walk, known: u64, out: &mut [u64], at: usize, room: usize, fit: usize) -> Turn
    requires known_older { KnownOlder s.now known w.older }
    requires room_nonzero { 0 < room }
    requires fit_le_room { (fit ≤ room) × (9 * fit ≤ length out.old - at) }
    requires room_bound { at + 9 * room < 2 ^ 64 }
    ensures { Quicks s.now room at w out.old result out.new }
{
    if 0 < w.older.left {
        let n = olds(s, w, out, at, room, fit);
        if n == 0 {
            return Turn::Stop(0);
        }
        return Turn::On(n, age(w, n), known);
    }
    let x = plains(s, w, out, at, room, fit);
    let u = headed(w, x);
    let n = x.count;
    let Some(h) = x.next else {
        if n == 0 {
            return Turn::Stop(0);
        }
        return Turn::On(n, u, known);
    };
    let Some((r, v, seen)) = behind(s, u, known, h) else {
        if n == 0 {
            return Turn::Stop(0);
        }
        return Turn::On(n, u, known);
    };
    tell_rec(s, out, at + 9 * n, v.key, r, r.hist.page);
    Turn::On(n + 1, v, seen)
}

// One turn: by the short ways, else by the walk's own step, which alone says the end and a refusal.
fn next(s: &[u8], w: Walk, known: u64, out: &mut [u64], at: usize, room: usize, fit: usize) -> Turn
    requires known_older { KnownOlder s.now known w.older }
    requires room_nonzero { 0 < room }
    requires fit_le_room { (fit ≤ room) × (9 * fit ≤ length out.old - at) }
    requires room_bound { at + 9 * room < 2 ^ 64 }
    ensures { Turns s.now room at w out.old result out.new }
{
    match quick(s, w, known, out, at, room, fit) {
        Turn::On(n, v, seen) => Turn::On(n, v, seen),
        Turn::Stop(_) => any(s, w, out, at, room),
    }
}

// How many records stand whole in so many words, from word `first` on: the short ways ask for no word's place.
fn whole_in(len: usize, first: usize, room: usize) -> usize
    ensures upper_bound { result ≤ room }
    ensures result_bound { 9 * result ≤ len - first }
{
    if len < first {
        return 0;
    }
    least(room, (len - first) / 9)
}

// At most `room` steps, each record's words behind the one's before, from word `first` on.
pub fn fill(s: &[u8], from: Walk, out: &mut [u64], first: usize, room: usize) -> Run
    requires { first + 9 * room < 2 ^ 64 }
    ensures value { result ≡ run_of room 0 s.now from }
    ensures out_after { out.new ≡ put out.old first (run_words room s.now from) }
{
    let fit = whole_in(out.len(), first, room);
    let mut w = from;
    let mut known: u64 = 0;
    let mut at: usize = first;
    let mut k: usize = 0;
    // No range to walk: a turn tells as many records as it finds in a row.
    while k < room {
        match next(s, w, known, out, at, room - k, spans::less(fit, k)) {
            Turn::On(n, v, seen) => {
                w = v;
                known = seen;
                at += 9 * n;
                k += n;
            }
            Turn::Stop(number) => {
                return Run {
                    count: k,
                    number,
                    walk: w,
                };
            }
        }
    }
    Run {
        count: k,
        number: 0,
        walk: w,
    }
}

// How many records fit into so many words, the first of which says how many there are.
pub fn room_in(len: usize) -> usize
    ensures value { result ≡ room_in len }
    ensures result_bound { 1 + 9 * result < 2 ^ 64 }
{
    len.saturating_sub(1) / 9
}

// The count goes in front of the records, the walk moved on back to its words; a refused first step changes neither.
pub fn tell_run(walk: &mut [u64], out: &mut [u64], x: Run) -> u32
    ensures value { result ≡ run_number x }
    ensures walk_after { walk.new ≡ written (run_walk x) walk.old }
    ensures out_after { out.new ≡ written (run_says x []) out.old }
{
    if x.count == 0 {
        if x.number == 0 {
            c_words::store(out, 0, 0);
        }
        return x.number;
    }
    c_words::store(out, 0, x.count as u64);
    c_words::store_walk(walk, x.walk);
    0
}
