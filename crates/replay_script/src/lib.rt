// The language of the judge's vectors (rust/oracle/README.md): a command's words read, and the pieces of an answer printed.
#![tactic(auto)]

ghost use Rattle.std.specs.Prelude.{◌≡◌, ◌≤◌, ◌++◌, length, codes, OnOk};
ghost use Rattle.std.specs.Io.KnownBytes.{Appends};
ghost use Rattle.frames.specs.Refusals.{number_of};
ghost use Rattle.replay_text.specs.Text.{runs_text};
ghost use Rattle.replay_script.specs.Pieces.{number_text, refused_text};
ghost use Rattle.replay_script.specs.Words.{first_word};

use frames::{Addr, Refusal};
use std::io;
use std::io::Write;

// ---- a command's words

// Whether a line is an answer. By patterns, which its first byte mostly decides: of the seven words in turn every line of a script would pay for each.
pub fn is_answer(l: &[u8]) -> bool {
    matches!(
        l,
        [b'=' | b'!', ..]
            | [b'r' | b'i', b' ', ..]
            | [b'e', b'n', b'd', ..]
            | [b'n', b'o', b'n', b'e', ..]
            | [b'b', b'y', b't', b'e', b's', b' ', ..]
    )
}

// A line's first word, with the space behind it.
pub fn command(l: &[u8]) -> &[u8]
    ensures { result.now ≡ first_word l.now }
{
    match l.iter().position(|b| *b == b' ') {
        Some(n) => &l[..n + 1],
        None => l,
    }
}

// The place of the k-th word behind a line's first.
pub fn place(l: &[u8], k: usize) -> usize {
    let mut at = 0;
    for _ in 0..k {
        at = replay_text::next_word(l, at);
    }
    at
}

// The number that the k-th word gives, 0 where it gives none.
pub fn number(l: &[u8], k: usize) -> u64 {
    replay_text::number_or_0(l, place(l, k))
}

// The same as an address, as a byte and as a u32.
pub fn address(l: &[u8], k: usize) -> Addr {
    Addr(number(l, k))
}

pub fn byte(l: &[u8], k: usize) -> u8 {
    (number(l, k) % 256) as u8
}

pub fn word32(l: &[u8], k: usize) -> u32 {
    (number(l, k) % 4294967296) as u32
}

// The bytes that the k-th word gives, as far as there is room for them.
pub fn bytes<'a>(l: &[u8], k: usize, room: &'a mut [u8]) -> &'a [u8]
    ensures { length result.now ≤ length room.old }
{
    let n = replay_text::bytes_at(l, place(l, k), room);
    &room[..n]
}

// A signed number: those below -2 stand for any that low.
pub fn signed(l: &[u8], k: usize) -> i64 {
    match replay_text::rest_of(l, place(l, k)) {
        [b'-', b'1', ..] => -1,
        [b'-', b'2', ..] => -2,
        [b'-', ..] => -3,
        text => i64::try_from(replay_text::number_or_0(text, 0)).unwrap_or(i64::MAX),
    }
}

// ---- an answer's pieces; a failed write ends each, and some of it may be written

pub fn say<W: Write>(out: &mut W, b: &[u8]) -> io::Result<()>
    ensures { OnOk result (Appends (W.contents out.old) (W.contents out.new) (b.now)) }
{
    out.write_all(b)
}

pub fn end_line<W: Write>(out: &mut W) -> io::Result<()>
    ensures { OnOk result (Appends (W.contents out.old) (W.contents out.new) (codes "\n")) }
{
    out.write_all(b"\n")
}

// A number behind a space.
pub fn say_number<W: Write>(out: &mut W, n: u64) -> io::Result<()>
    ensures { OnOk result (Appends (W.contents out.old) (W.contents out.new) (number_text n)) }
{
    write!(out, " {n}")
}

// Bytes behind a space.
pub fn say_bytes<W: Write>(out: &mut W, b: &[u8]) -> io::Result<()>
    ensures { OnOk result (Appends (W.contents out.old) (W.contents out.new) (codes " " ++ runs_text b.now)) }
{
    out.write_all(b" ")?;
    replay_text::print_runs(out, b)
}

pub fn refused<W: Write>(out: &mut W, r: Refusal) -> io::Result<()>
    ensures { OnOk result (Appends (W.contents out.old) (W.contents out.new) (refused_text (number_of r))) }
{
    writeln!(out, "! {}", frames::number(r))
}

pub fn nothing<W: Write>(out: &mut W) -> io::Result<()>
    ensures { OnOk result (Appends (W.contents out.old) (W.contents out.new) (codes "none\n")) }
{
    out.write_all(b"none\n")
}

pub fn is_bytes<W: Write>(out: &mut W, b: &[u8]) -> io::Result<()>
    ensures { OnOk result (Appends (W.contents out.old) (W.contents out.new) (codes "=" ++ ((codes " " ++ runs_text b.now) ++ codes "\n"))) }
{
    out.write_all(b"=")?;
    say_bytes(out, b)?;
    end_line(out)
}

pub fn is_number<W: Write>(out: &mut W, n: u64) -> io::Result<()>
    ensures { OnOk result (Appends (W.contents out.old) (W.contents out.new) (codes "=" ++ (number_text n ++ codes "\n"))) }
{
    writeln!(out, "= {n}")
}

pub fn are_numbers<W: Write>(out: &mut W, a: u64, b: u64) -> io::Result<()>
    ensures { OnOk result (Appends (W.contents out.old) (W.contents out.new) (codes "=" ++ (number_text a ++ (number_text b ++ codes "\n")))) }
{
    writeln!(out, "= {a} {b}")
}
