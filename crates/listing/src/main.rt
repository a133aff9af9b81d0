// Reads a record list of at most 16,384 bytes from standard input, builds a leaf of it at limit 64, budget 256, without boundaries, in
// an arena of 49,152 bytes from 8 on, and lists what the page says by walking it; or prints the number of the refusal.
#![tactic(auto)]

use frames::{Addr, NULL_PID, Refusal};
use order::Ver;
use std::io;
use std::io::{BufWriter, Write};
use walks::{Item, Step, Walk};

// The most records that a walk is followed for: a list of this size holds fewer than a thousand.
const MOST: usize = 16384;

fn refused<W: Write>(out: &mut W, r: Refusal) -> io::Result<()> {
    writeln!(out, "refused {}", frames::number(r))
}

// How many records a walk finds.
fn count(s: &[u8], from: Walk) -> usize {
    let mut w = from;
    for k in 0..MOST {
        match w.step(s) {
            Ok(Step::Found(_, next)) => {
                w = next;
            }
            Ok(Step::Leads(_, next)) => {
                w = next;
            }
            Ok(Step::End) => {
                return k;
            }
            Err(_) => {
                return k;
            }
        }
    }
    MOST
}

// KEYHEX TXID CMD VALUEHEX
fn line<W: Write>(out: &mut W, s: &[u8], x: Item) -> io::Result<()> {
    let Ver { txid, cmd } = x.ver;
    replay_text::print_bytes(out, walks::rest_of(s, x))?;
    write!(out, " {txid} {cmd} ")?;
    replay_text::print_bytes(out, walks::value_of(s, x))?;
    out.write_all(b"\n")
}

fn lines<W: Write>(out: &mut W, s: &[u8], from: Walk) -> io::Result<()> {
    let mut w = from;
    for _ in 0..MOST {
        match w.step(s) {
            Ok(Step::Found(x, next)) => {
                line(out, s, x)?;
                w = next;
            }
            Ok(Step::Leads(_, next)) => {
                w = next;
            }
            Ok(Step::End) => {
                return Ok(());
            }
            Err(r) => {
                return refused(out, r);
            }
        }
    }
    Ok(())
}

// What the page at an address says.
fn listed<W: Write>(out: &mut W, s: &[u8], a: Addr) -> io::Result<()> {
    let Some(b) = frames::open_at(s, a) else {
        return refused(out, Refusal::BadFrame);
    };
    let keys = b.elems;
    let begun = walks::forward(s, a, 0, keys);
    match begun {
        Ok(w) => {
            let records = count(s, w);
            writeln!(out, "keys {keys} records {records}")?;
            lines(out, s, w)
        }
        Err(r) => refused(out, r),
    }
}

// Builds the list's leaf, and lists it.
fn built<W: Write>(out: &mut W, arena: &mut [u8], list: &[u8]) -> io::Result<()> {
    let r = base::new_leaf(arena, 8, list, b"", b"", NULL_PID, 64, 256, 0, 0, 0, 0);
    match r {
        Ok((a, _)) => listed(out, &arena[..], a),
        Err(n) => refused(out, n),
    }
}

fn main(rt: HostRuntime) -> io::Result<()> {
    let mut out = BufWriter::new(rt.alloc(), io::writer(&rt))?;
    let mut buf = [0u8; 65536];
    let n = replay_text::read_full(&mut rt.stdin(), &mut buf)?;
    if 16384 < n {
        refused(&mut out, Refusal::BadList)?;
        return out.flush();
    }
    let mut arena = [0u8; 49152];
    built(&mut out, &mut arena, &buf[..n])?;
    out.flush()
}
