// The commands of the judge's vectors that build: each is carried out in the lent arena, and its answer and what it wrote are printed.
#![tactic(auto)]

use frames::{Addr, PageId, Refusal};
use order::Ver;
use std::io;
use std::io::Write;

// Room for a list or a value, and for a boundary or a key: fixed memory, and bytes behind it are left out.
const LIST: usize = 262144;

const KEY: usize = 16384;

// ---- what was built

// What a build wrote, from one address up to another, in lines of at most 32,768 bytes.
fn written<W: Write>(out: &mut W, a: &[u8], from: usize, upto: usize) -> io::Result<()> {
    for at in (from..upto).step_by(32768) {
        replay_script::say(out, b"bytes")?;
        replay_script::say_number(out, at as u64)?;
        replay_script::say_bytes(out, spans::part_of(a, at, (upto - at).min(32768)))?;
        replay_script::end_line(out)?;
    }
    Ok(())
}

fn built_at<W: Write>(out: &mut W, a: &[u8], next: usize, x: Addr, upto: usize) -> io::Result<()> {
    replay_script::are_numbers(out, x.0, upto as u64)?;
    written(out, a, next, upto)
}

fn built<W: Write>(
    out: &mut W,
    a: &[u8],
    next: usize,
    b: Result<(Addr, usize), Refusal>,
) -> io::Result<()> {
    match b {
        Ok((x, upto)) => built_at(out, a, next, x, upto),
        Err(r) => replay_script::refused(out, r),
    }
}

// ---- pages of lists

// leaf NEXT LIMIT BUDGET TXID GROUP LSN CKPT SIBLING LO HI LIST
fn leaf<W: Write>(out: &mut W, l: &[u8], a: &mut [u8]) -> io::Result<()> {
    let mut list = [0u8; LIST];
    let mut lo = [0u8; KEY];
    let mut hi = [0u8; KEY];
    let next = replay_script::number(l, 1) as usize;
    let b = base::new_leaf(
        a,
        next,
        replay_script::bytes(l, 11, &mut list),
        replay_script::bytes(l, 9, &mut lo),
        replay_script::bytes(l, 10, &mut hi),
        PageId(replay_script::number(l, 8)),
        replay_script::number(l, 2) as usize,
        replay_script::number(l, 3) as usize,
        replay_script::byte(l, 5),
        replay_script::number(l, 4),
        replay_script::number(l, 6),
        replay_script::number(l, 7),
    );
    built(out, a, next, b)
}

// index NEXT TXID GROUP LSN CKPT SIBLING LO HI LIST
fn index<W: Write>(out: &mut W, l: &[u8], a: &mut [u8]) -> io::Result<()> {
    let mut list = [0u8; LIST];
    let mut lo = [0u8; KEY];
    let mut hi = [0u8; KEY];
    let next = replay_script::number(l, 1) as usize;
    let b = base::new_intl(
        a,
        next,
        replay_script::bytes(l, 9, &mut list),
        replay_script::bytes(l, 7, &mut lo),
        replay_script::bytes(l, 8, &mut hi),
        PageId(replay_script::number(l, 6)),
        replay_script::byte(l, 3),
        replay_script::number(l, 2),
        replay_script::number(l, 4),
        replay_script::number(l, 5),
    );
    built(out, a, next, b)
}

// common LO HI
fn common<W: Write>(out: &mut W, l: &[u8]) -> io::Result<()> {
    let mut lo = [0u8; KEY];
    let mut hi = [0u8; KEY];
    let n = base::calc_prefix(
        replay_script::bytes(l, 1, &mut lo),
        replay_script::bytes(l, 2, &mut hi),
    );
    replay_script::is_number(out, n as u64)
}

// ---- merges

// merge NEXT LIMIT BUDGET TXID GROUP LSN CKPT LEFT RIGHT
fn merge<W: Write>(out: &mut W, l: &[u8], a: &mut [u8]) -> io::Result<()> {
    let next = replay_script::number(l, 1) as usize;
    let b = merge::merge(
        a,
        next,
        replay_script::address(l, 8),
        replay_script::address(l, 9),
        replay_script::number(l, 2) as usize,
        replay_script::number(l, 3) as usize,
        replay_script::byte(l, 5),
        replay_script::number(l, 4),
        replay_script::number(l, 6),
        replay_script::number(l, 7),
    );
    built(out, a, next, b)
}

// ---- deltas

// dleaf NEXT LIMIT GROUP LSN CKPT TXID CMD KEY VALUE
fn leaf_delta<W: Write>(out: &mut W, l: &[u8], a: &mut [u8]) -> io::Result<()> {
    let mut key = [0u8; KEY];
    let mut value = [0u8; LIST];
    let next = replay_script::number(l, 1) as usize;
    let b = delta::from_key_val(
        a,
        next,
        replay_script::number(l, 2) as usize,
        replay_script::byte(l, 3),
        replay_script::number(l, 4),
        replay_script::number(l, 5),
        Ver::new(replay_script::number(l, 6), replay_script::word32(l, 7)),
        replay_script::bytes(l, 8, &mut key),
        replay_script::bytes(l, 9, &mut value),
    );
    built(out, a, next, b)
}

// dindex NEXT TXID GROUP LSN CKPT KEY PID
fn index_delta<W: Write>(out: &mut W, l: &[u8], a: &mut [u8]) -> io::Result<()> {
    let mut key = [0u8; KEY];
    let next = replay_script::number(l, 1) as usize;
    let b = delta::from_key_index(
        a,
        next,
        replay_script::number(l, 2),
        replay_script::byte(l, 3),
        replay_script::number(l, 4),
        replay_script::number(l, 5),
        replay_script::bytes(l, 6, &mut key),
        PageId(replay_script::number(l, 7)),
    );
    built(out, a, next, b)
}

// ---- all of them

// Carries out the command of a line in an arena; false where the line builds nothing.
pub fn carried_out<W: Write>(out: &mut W, l: &[u8], a: &mut [u8]) -> io::Result<bool> {
    match replay_script::command(l) {
        b"leaf " => leaf(out, l, a)?,
        b"index " => index(out, l, a)?,
        b"common " => common(out, l)?,
        b"merge " => merge(out, l, a)?,
        b"dleaf " => leaf_delta(out, l, a)?,
        b"dindex " => index_delta(out, l, a)?,
        _ => return Ok(false),
    }
    Ok(true)
}
