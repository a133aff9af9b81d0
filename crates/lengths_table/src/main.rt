// Encodes each number of standard input, one a line, as a length; reads it back; and prints the bytes, which the file `stdout` holds as
// GNU as wrote them. Then forms that are no shortest form of a u32, each of which the reader must refuse.
#![tactic(auto)]

use std::io;
use std::io::{BufWriter, Write};

// Whether a form is refused.
fn refused(s: &[u8]) -> bool {
    match lengths::read(s, 0) {
        Some((_, _)) => false,
        None => true,
    }
}

// Whether the length at place 1 reads back as x and ends where n bytes end.
fn reads_back(s: &[u8], x: u32, n: usize) -> bool {
    match lengths::read(s, 1) {
        Some((v, next)) => v == x && next.checked_sub(1) == Some(n) && lengths::size(x) == n,
        None => false,
    }
}

fn line<W: Write>(out: &mut W, x: u32) -> io::Result<()> {
    let mut bytes = [0u8; 8];
    let n = lengths::write(&mut bytes, 1, x);
    write!(out, "{x} ")?;
    replay_text::print_bytes(out, spans::part_of(&bytes, 1, n))?;
    if reads_back(&bytes, x, n) {
        out.write_all(b"\n")
    } else {
        out.write_all(b" does not read back\n")
    }
}

fn lines<W: Write>(out: &mut W, s: &[u8]) -> io::Result<()> {
    let mut rest = s;
    while !rest.is_empty() {
        let Some((v, next)) = replay_text::number_at(rest, 0) else {
            return out.write_all(b"no number\n");
        };
        let Ok(x) = u32::try_from(v) else {
            return out.write_all(b"no u32\n");
        };
        line(out, x)?;
        rest = replay_text::rest_of(rest, next + 1);
    }
    Ok(())
}

fn main(rt: HostRuntime) -> io::Result<()> {
    let mut out = BufWriter::new(rt.alloc(), io::writer(&rt))?;
    let mut buf = [0u8; 65536];
    let n = replay_text::read_full(&mut rt.stdin(), &mut buf)?;
    lines(&mut out, &buf[..n])?;
    // none, cut short, zeros too many, a byte too long, over a u32, six bytes
    let forms: [&[u8]; 6] = [
        b"",
        b"\x80",
        b"\x80\x00",
        b"\xff\x80\x00",
        b"\xff\xff\xff\xff\x10",
        b"\x80\x80\x80\x80\x80\x01",
    ];
    let count = forms.iter().filter(|form| refused(**form)).count();
    writeln!(out, "refused {count} of 6")?;
    out.flush()
}
