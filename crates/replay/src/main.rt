// Replays the judge's vectors: reads tests/vectors (tools/test puts them together), leaves every answer out, prints every other line again
// with our own answer behind it, and must so write what it read, byte for byte.
#![tactic(auto)]

ghost use Rattle.std.specs.Prelude.{◌≤◌, length, IfOk};

use std::io;
use std::io::{BufWriter, Read, Write};

// The longest arena and the longest second buffer.
const ARENA: usize = 262144;

const SECOND: usize = 16384;

// What commands work on: an arena, and a second buffer that they read, which is as much of its room as is held. Speed: with a Vec that is filled and cut
// an empty `buffer` command takes 5 times as long, with one that is extended by the bytes of another room a full one 2.6 times.
#[derive(Drop)]
struct Rooms {
    arena: Vec<u8>,
    second: Vec<u8>,
    held: usize,
}

// arena SIZE FILL: a new arena.
fn begin(l: &[u8], arena: &mut Vec<u8>) -> io::Result<()> {
    let size = replay_script::number(l, 1).min(ARENA as u64);
    arena.clear();
    arena.resize(size as usize, replay_script::byte(l, 2))?;
    Ok(())
}

// buffer BYTES: the second buffer from here on.
fn hold(l: &[u8], rooms: &mut Rooms) {
    rooms.held = replay_script::bytes(l, 1, &mut rooms.second).len();
}

// put AT BYTES
fn store(l: &[u8], arena: &mut [u8]) {
    let at = replay_script::number(l, 1).min(arena.len() as u64) as usize;
    replay_script::bytes(l, 2, &mut arena[at..]);
}

// One line: left out where it is an answer, else printed again and carried out.
fn turn<W: Write>(out: &mut W, l: &[u8], rooms: &mut Rooms) -> io::Result<()> {
    if replay_script::is_answer(l) {
        return Ok(());
    }
    replay_script::say(out, l)?;
    replay_script::end_line(out)?;
    // Speed: with the line's first word in a match, as the other commands have it, an empty `buffer` command takes 1.6 times as long.
    if l.starts_with(b"arena ") {
        begin(l, &mut rooms.arena)?;
    } else if l.starts_with(b"buffer ") {
        hold(l, rooms);
    } else if l.starts_with(b"put ") {
        store(l, &mut rooms.arena);
    } else if !replay_writers::carried_out(out, l, &mut rooms.arena)? {
        let second = &rooms.second[..rooms.held.min(rooms.second.len())];
        replay_readers::answer(out, l, &rooms.arena, second)?;
    }
    Ok(())
}

// The whole lines of a text; how many bytes are left behind them.
fn lines<W: Write>(out: &mut W, t: &[u8], rooms: &mut Rooms) -> io::Result<usize>
    ensures { IfOk result (λ n. n ≤ length t.now) }
{
    let mut rest = t;
    while let Some(n) = rest.iter().position(|b| *b == b'\n') {
        turn(out, &rest[..n], rooms)?;
        rest = &rest[n + 1..];
    }
    Ok(rest.len())
}

// Standard input in rounds of what buf holds, 256 of them: 16 MB in all. What is left behind the whole lines of a round stands before the next.
fn rounds<R: Read, W: Write>(
    from: &mut R,
    out: &mut W,
    buf: &mut [u8],
    rooms: &mut Rooms,
) -> io::Result<()> {
    let mut left = 0;
    for _ in 0..256 {
        let n = left + replay_text::read_full(from, &mut buf[left..])?;
        left = lines(out, &buf[..n], rooms)?;
        buf.copy_within(n - left..n, 0);
    }
    Ok(())
}

fn main(rt: HostRuntime) -> io::Result<()> {
    let mut out = BufWriter::new(rt.alloc(), io::writer(&rt))?;
    let mut buf = [0u8; 65536];
    let mut rooms = Rooms {
        arena: Vec::with_capacity(rt.alloc(), ARENA)?,
        second: vec![in rt.alloc(); 0; SECOND]?,
        held: 0,
    };
    rounds(&mut rt.stdin(), &mut out, &mut buf, &mut rooms)?;
    out.flush()
}
