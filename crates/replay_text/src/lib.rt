// Text for the programs: lines, words, decimal numbers and hexadecimal bytes (runs as hh*N.), read from a slice and printed.
#![tactic(auto)]

ghost use Rattle.std.specs.Prelude.{◌≤◌, ◌<◌, ◌≡◌, ◌+◌, ◌-◌, length, take, IfOk, OnOk, IfSome};
ghost use Rattle.std.specs.Io.KnownBytes.{Appends, Consumes, IsAtEnd};
ghost use Rattle.replay_text.specs.Ends.{Ends, Reaches};
ghost use Rattle.replay_text.specs.Text.{hex_of, bytes_text, run_length, runs_text};

use std::io;
use std::io::{Read, Write};

// The first place from at on where b stands, or the end of the text.
pub fn find(s: &[u8], at: usize, b: u8) -> usize
    ensures { Reaches s.now at result }
{
    match rest_of(s, at).iter().position(|x| *x == b) {
        Some(n) => at + n,
        None => at.max(s.len()),
    }
}

// The place behind the next space, or the end of the text.
pub fn next_word(s: &[u8], at: usize) -> usize
    ensures { Reaches s.now at result }
{
    let p = find(s, at, b' ');
    if p < s.len() { p + 1 } else { p }
}

// What is left of the text from at on.
pub fn rest_of(s: &[u8], at: usize) -> &[u8]
    ensures { length result.now ≡ length s.now - at }
{
    &s[at.min(s.len())..]
}

// The decimal number from at on, and the place of the byte that ends it; a number over a u64 reads as the largest.
pub fn number_at(s: &[u8], at: usize) -> Option<(u64, usize)>
    ensures { Ends s.now at result }
{
    let text = rest_of(s, at);
    let mut rest = text;
    let mut v: u64 = 0;
    while let [b @ b'0'..=b'9', tail @ ..] = rest {
        v = v.saturating_mul(10).saturating_add(u64::from(*b - b'0'));
        rest = tail;
    }
    if rest.len() < text.len() {
        Some((v, s.len() - rest.len()))
    } else {
        None
    }
}

// The decimal number from at on, 0 where there is none.
pub fn number_or_0(s: &[u8], at: usize) -> u64 {
    number_at(s, at).map_or(0, |x| x.0)
}

// A hexadecimal digit's value; the letters are small ones.
fn digit(b: u8) -> Option<u8>
    ensures { IfSome result (λ d. d < 16) }
{
    match b {
        b'0'..=b'9' => Some(b - b'0'),
        b'a'..=b'f' => Some(b - b'a' + 10),
        _ => None,
    }
}

// The run N of a byte that *N. follows, and what is left of the text behind.
fn run_at(s: &[u8]) -> Option<(u64, &[u8])>
    ensures { IfSome result (λ r. length r.1.now ≤ length s.now) }
{
    let text = s.strip_prefix(b"*")?;
    let (n, next) = number_at(text, 0)?;
    Some((n, rest_of(text, next + 1)))
}

// Stores b from at on so often, as far as there is room; the place behind.
fn fill(dst: &mut [u8], at: usize, b: u8, count: u64) -> usize
    requires { at ≤ length dst.old }
    ensures { result ≤ length dst.new }
{
    let end = at + (dst.len() - at).min(count as usize);
    dst[at..end].fill(b);
    end
}

// Reads bytes from at on into dst, as far as there is room, and answers how many.
pub fn bytes_at(s: &[u8], at: usize, dst: &mut [u8]) -> usize
    ensures { result ≤ length dst.new }
{
    let mut rest = rest_of(s, at);
    let mut n = 0;
    while let [high, low, tail @ ..] = rest {
        let (Some(h), Some(l)) = (digit(*high), digit(*low)) else {
            break;
        };
        let (count, behind) = run_at(tail).unwrap_or((1, tail));
        n = fill(dst, n, h * 16 + l, count);
        rest = behind;
    }
    n
}

// How many bytes at the front are b.
fn run_of(b: u8, s: &[u8]) -> usize
    ensures inside { result ≤ length s.now }
    ensures count { result ≡ run_length b s.now }
{
    s.iter().position(|x| *x != b).unwrap_or(s.len())
}

// Writes the bytes in hexadecimal, a run of four or more as hh*N., or - where there are none. A failed write ends it; some may be written.
pub fn print_runs<W: Write>(out: &mut W, s: &[u8]) -> io::Result<()>
    ensures { OnOk result (Appends (W.contents out.old) (W.contents out.new) (runs_text s.now)) }
{
    if s.is_empty() {
        return out.write_all(b"-");
    }
    let mut rest = s;
    while let Some((b, tail)) = rest.split_first() {
        let more = run_of(*b, tail);
        print_byte(out, *b)?;
        if more < 3 {
            rest = tail;
        } else {
            write!(out, "*{}.", more + 1)?;
            rest = &tail[more..];
        }
    }
    Ok(())
}

// Writes the bytes in hexadecimal, two digits a byte, or - where there are none. A failed write ends it; some may be written.
pub fn print_bytes<W: Write>(out: &mut W, s: &[u8]) -> io::Result<()>
    ensures { OnOk result (Appends (W.contents out.old) (W.contents out.new) (bytes_text s.now)) }
{
    if s.is_empty() {
        return out.write_all(b"-");
    }
    for b in s {
        print_byte(out, *b)?;
    }
    Ok(())
}

// Two hexadecimal digits.
fn print_byte<W: Write>(out: &mut W, b: u8) -> io::Result<()>
    ensures { OnOk result (Appends (W.contents out.old) (W.contents out.new) (hex_of b)) }
{
    write!(out, "{b:02x}")
}

// Reads until buf is full or the input ends, and answers how many bytes stand at its front. A failed read ends it; buf then holds
// anything. No call of std does this: read_exact says nothing of what a shorter input left, so the count is kept here.
pub fn read_full<R: Read>(from: &mut R, buf: &mut [u8]) -> io::Result<usize>
    ensures bound { IfOk result (λ n. n ≤ length buf.new) }
    ensures bytes { IfOk result (λ n. Consumes (R.remaining from.old) (R.remaining from.new) (take n buf.new)) }
    ensures end { IfOk result (λ n. n < length buf.new → IsAtEnd (R.remaining from.new)) }
{
    let mut done = 0;
    while done < buf.len() {
        let n = from.read(&mut buf[done..])?;
        if n == 0 {
            return Ok(done);
        }
        done += n;
    }
    Ok(done)
}
