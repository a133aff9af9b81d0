// The commands of the judge's vectors that read: each is carried out on the lent arena, and what it answers is printed.
#![tactic(auto)]

use delta::LeafKey;
use frames::{Addr, Refusal};
use order::Ver;
use overlay::Laid;
use pages::Hints;
use sst::{Bound, Floor, Found};
use std::io;
use std::io::Write;
use walks::{Branch, Item, Step, Walk};

// ---- pages

fn check<W: Write>(out: &mut W, s: &[u8], a: Addr) -> io::Result<()> {
    match pages::check(s, a) {
        Ok(()) => replay_script::is_number(out, 1),
        Err(r) => replay_script::refused(out, r),
    }
}

// hi, which is none where it is empty.
fn high<W: Write>(out: &mut W, b: &[u8]) -> io::Result<()> {
    if b.is_empty() {
        replay_script::nothing(out)
    } else {
        replay_script::is_bytes(out, b)
    }
}

// What a page says of its keys.
#[derive(Clone, Copy)]
enum Edge {
    Lo,
    Hi,
    Prefix,
}

fn boundary<W: Write>(out: &mut W, s: &[u8], a: Addr, which: Edge) -> io::Result<()> {
    match pages::bounds_at(s, a) {
        Err(r) => replay_script::refused(out, r),
        Ok(_) => match which {
            Edge::Lo => replay_script::is_bytes(out, pages::lo(s, a)),
            Edge::Hi => high(out, pages::hi(s, a)),
            Edge::Prefix => replay_script::is_bytes(out, pages::prefix(s, a)),
        },
    }
}

fn addresses<W: Write>(out: &mut W, s: &[u8], h: Hints) -> io::Result<()> {
    replay_script::say(out, b"=")?;
    for k in 0..h.count {
        match pages::hint_at(s, h, k) {
            Some(a) => replay_script::say_number(out, a.0)?,
            None => replay_script::say_number(out, 0)?,
        }
    }
    replay_script::end_line(out)
}

fn hints<W: Write>(out: &mut W, s: &[u8], h: Result<Option<Hints>, Refusal>) -> io::Result<()> {
    match h {
        Ok(Some(x)) => addresses(out, s, x),
        Ok(None) => replay_script::nothing(out),
        Err(r) => replay_script::refused(out, r),
    }
}

// ---- walks

fn row<W: Write>(out: &mut W, s: &[u8], x: Item) -> io::Result<()> {
    replay_script::say(out, b"r")?;
    replay_script::say_bytes(out, walks::rest_of(s, x))?;
    replay_script::say_number(out, x.ver.txid)?;
    replay_script::say_number(out, u64::from(x.ver.cmd))?;
    replay_script::say_bytes(out, walks::value_of(s, x))?;
    replay_script::say_number(out, x.named.0)?;
    replay_script::end_line(out)
}

fn child<W: Write>(out: &mut W, s: &[u8], x: Branch) -> io::Result<()> {
    replay_script::say(out, b"i")?;
    replay_script::say_bytes(out, walks::branch_rest_of(s, x))?;
    replay_script::say_number(out, x.page.0)?;
    replay_script::end_line(out)
}

// All steps of a walk, of which the vectors have fewer than a million.
fn steps<W: Write>(out: &mut W, s: &[u8], from: Walk) -> io::Result<()> {
    let mut w = from;
    for _ in 0..1000000 {
        match w.step(s) {
            Ok(Step::Found(x, next)) => {
                row(out, s, x)?;
                w = next;
            }
            Ok(Step::Leads(x, next)) => {
                child(out, s, x)?;
                w = next;
            }
            Ok(Step::End) => {
                return replay_script::say(out, b"end\n");
            }
            Err(r) => {
                return replay_script::refused(out, r);
            }
        }
    }
    Ok(())
}

fn walked<W: Write>(out: &mut W, s: &[u8], b: Result<Walk, Refusal>) -> io::Result<()> {
    match b {
        Ok(w) => steps(out, s, w),
        Err(r) => replay_script::refused(out, r),
    }
}

// ---- deltas

fn delta_key<W: Write>(out: &mut W, s: &[u8], a: Addr) -> io::Result<()> {
    match delta::key(s, a) {
        Ok(LeafKey { ver, key }) => {
            replay_script::say(out, b"=")?;
            replay_script::say_bytes(out, pages::part_at(s, key))?;
            replay_script::say_number(out, ver.txid)?;
            replay_script::say_number(out, ver.cmd as u64)?;
            replay_script::end_line(out)
        }
        Err(r) => replay_script::refused(out, r),
    }
}

fn delta_val<W: Write>(out: &mut W, s: &[u8], a: Addr) -> io::Result<()> {
    match delta::val(s, a) {
        Ok(p) => replay_script::is_bytes(out, pages::part_at(s, p)),
        Err(r) => replay_script::refused(out, r),
    }
}

fn index_key<W: Write>(out: &mut W, s: &[u8], a: Addr) -> io::Result<()> {
    match delta::index_key(s, a) {
        Ok(p) => replay_script::is_bytes(out, pages::part_at(s, p)),
        Err(r) => replay_script::refused(out, r),
    }
}

fn index_page<W: Write>(out: &mut W, s: &[u8], a: Addr) -> io::Result<()> {
    match delta::index(s, a) {
        Ok(p) => replay_script::is_number(out, p.0),
        Err(r) => replay_script::refused(out, r),
    }
}

// ---- lengths

fn length<W: Write>(out: &mut W, n: u32) -> io::Result<()> {
    let mut b = [0u8; 8];
    let stored = lengths::write(&mut b, 0, n);
    replay_script::is_bytes(out, spans::part_of(&b, 0, stored))
}

fn unlength<W: Write>(out: &mut W, b: &[u8]) -> io::Result<()> {
    match lengths::read(b, 0) {
        Some((v, next)) => replay_script::are_numbers(out, v as u64, next as u64),
        None => replay_script::refused(out, Refusal::BadFrame),
    }
}

// ---- searches and overlays

fn nothing_after<W: Write>(out: &mut W, reads: usize) -> io::Result<()> {
    writeln!(out, "none {reads}")
}

fn lower<W: Write>(out: &mut W, s: &[u8], a: Addr, key: &[u8], v: Ver) -> io::Result<()> {
    match sst::lower_bound(s, a, key, v) {
        Ok(Bound::At { pos, reads }) => replay_script::are_numbers(out, pos as u64, reads as u64),
        Ok(Bound::PastEnd { pos, reads }) => replay_script::are_numbers(
            out,
            pos as u64,
            reads as u64,
        ),
        Err(r) => replay_script::refused(out, r),
    }
}

fn floor<W: Write>(out: &mut W, s: &[u8], a: Addr, key: &[u8]) -> io::Result<()> {
    match sst::floor_pid_by_raw(s, a, key) {
        Ok(Floor::Is { slot, page, reads }) => writeln!(out, "= {slot} {} {reads}", page.0),
        Ok(Floor::Nothing { reads }) => nothing_after(out, reads),
        Err(r) => replay_script::refused(out, r),
    }
}

fn search<W: Write>(out: &mut W, s: &[u8], a: Addr, key: &[u8]) -> io::Result<()> {
    match sst::search_ver_val_by_raw(s, a, key) {
        Ok(
            Found::Is {
                slot,
                ver,
                hist: _,
                value,
                reads,
            },
        ) => {
            replay_script::say(out, b"=")?;
            replay_script::say_number(out, slot as u64)?;
            replay_script::say_number(out, ver.txid)?;
            replay_script::say_number(out, ver.cmd as u64)?;
            replay_script::say_bytes(out, pages::part_at(s, value))?;
            replay_script::say_number(out, reads as u64)?;
            replay_script::end_line(out)
        }
        Ok(Found::Nothing { reads }) => nothing_after(out, reads),
        Err(r) => replay_script::refused(out, r),
    }
}

// Bytes of an overlay, behind a word that says whose they are.
fn lent_by<W: Write>(out: &mut W, which: &[u8], b: &[u8]) -> io::Result<()> {
    replay_script::say(out, which)?;
    replay_script::say_bytes(out, b)?;
    replay_script::end_line(out)
}

fn laid<W: Write>(out: &mut W, s: &[u8], a: Addr, t: &[u8], d: Addr, key: &[u8]) -> io::Result<()> {
    match overlay::answer(s, a, t, d, key) {
        Ok(Laid::Delta(p)) => lent_by(out, b"= d", pages::part_at(t, p)),
        Ok(Laid::Page(p)) => lent_by(out, b"= p", pages::part_at(s, p)),
        Ok(Laid::Nothing) => replay_script::nothing(out),
        Err(r) => replay_script::refused(out, r),
    }
}

// ---- all of them

// The commands that give bytes: only they take the fixed memory that these are read into. No probe of the vectors is longer.
fn of_bytes<W: Write>(
    out: &mut W,
    l: &[u8],
    word: &[u8],
    s: &[u8],
    a: Addr,
    t: &[u8],
) -> io::Result<()> {
    let mut room = [0u8; 16384];
    match word {
        // BYTES
        b"unlength " => unlength(out, replay_script::bytes(l, 1, &mut room)),
        // ADDR KEY TXID CMD
        b"lower " => {
            let ver = Ver::new(replay_script::number(l, 3), replay_script::word32(l, 4));
            lower(out, s, a, replay_script::bytes(l, 2, &mut room), ver)
        }
        // ADDR KEY
        b"floor " => floor(out, s, a, replay_script::bytes(l, 2, &mut room)),
        b"search " => search(out, s, a, replay_script::bytes(l, 2, &mut room)),
        // ADDR DELTA KEY
        b"overlay " => {
            let d = replay_script::address(l, 2);
            laid(out, s, a, t, d, replay_script::bytes(l, 3, &mut room))
        }
        _ => Ok(()),
    }
}

// Answers the command of a line on an arena and a second buffer; prints nothing where the line is no reader's.
pub fn answer<W: Write>(out: &mut W, l: &[u8], s: &[u8], t: &[u8]) -> io::Result<()> {
    let a = replay_script::address(l, 1);
    match replay_script::command(l) {
        // ADDR
        b"check " => check(out, s, a),
        b"lo " => boundary(out, s, a, Edge::Lo),
        b"hi " => boundary(out, s, a, Edge::Hi),
        b"prefix " => boundary(out, s, a, Edge::Prefix),
        b"hists " => hints(out, s, pages::history_hints(s, a)),
        b"remotes " => hints(out, s, pages::remote_hints(s, a)),
        b"dkey " => delta_key(out, s, a),
        b"dval " => delta_val(out, s, a),
        b"ikey " => index_key(out, s, a),
        b"ipid " => index_page(out, s, a),
        // ADDR BEGIN END
        b"walk " => {
            let begin = replay_script::number(l, 2) as usize;
            let end = replay_script::number(l, 3) as usize;
            walked(out, s, walks::forward(s, a, begin, end))
        }
        // ADDR START END
        b"back " => {
            let start = replay_script::signed(l, 2);
            let end = replay_script::signed(l, 3);
            walked(out, s, walks::backward(s, a, start, end))
        }
        // N
        b"length " => length(out, replay_script::word32(l, 1)),
        word => of_bytes(out, l, word, s, a, t),
    }
}
