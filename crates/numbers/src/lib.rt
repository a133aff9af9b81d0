// Numbers of 1, 2, 4 and 8 bytes in a lent slice, read and stored in place, the lowest byte first, and read (be) the highest first.
// A function a width: each is one call of the library's, and a trait over the widths would be longer than their bodies.
#![tactic(auto)]

ghost use Rattle.std.specs.Prelude.{◌≡◌, ◌+◌, ◌≤◌, length};
ghost use Rattle.spans.specs.Span.{put};
ghost use Rattle.numbers.specs.Number.{le, le_at, be_at};

#[tactic(auto, using(crate::proofs::Bytes::read_2))]
pub fn read_u16(s: &[u8], at: usize) -> u16
    requires { at + 2 ≤ length s.now }
    ensures { result ≡ le_at 2 s.now at }
{
    u16::from_le_bytes([s[at], s[at + 1]])
}

#[tactic(auto, using(crate::proofs::Bytes::read_4))]
pub fn read_u32(s: &[u8], at: usize) -> u32
    requires { at + 4 ≤ length s.now }
    ensures { result ≡ le_at 4 s.now at }
{
    u32::from_le_bytes([s[at], s[at + 1], s[at + 2], s[at + 3]])
}

#[tactic(auto, using(crate::proofs::Bytes::read_8))]
pub fn read_u64(s: &[u8], at: usize) -> u64
    requires { at + 8 ≤ length s.now }
    ensures { result ≡ le_at 8 s.now at }
{
    u64::from_le_bytes([
        s[at],
        s[at + 1],
        s[at + 2],
        s[at + 3],
        s[at + 4],
        s[at + 5],
        s[at + 6],
        s[at + 7],
    ])
}

#[tactic(auto, using(crate::proofs::Numbers::put1))]
pub fn put_u8(buf: &mut [u8], at: usize, x: u8)
    requires { at + 1 ≤ length buf.old }
    ensures { buf.new ≡ put buf.old at (le 1 x) }
{
    buf[at] = x;
}

#[tactic(auto, using(crate::proofs::Bytes::stored_2))]
pub fn put_u16(buf: &mut [u8], at: usize, x: u16)
    requires { at + 2 ≤ length buf.old }
    ensures { buf.new ≡ put buf.old at (le 2 x) }
{
    buf[at..at + 2].copy_from_slice(&x.to_le_bytes());
}

#[tactic(auto, using(crate::proofs::Bytes::stored_4))]
pub fn put_u32(buf: &mut [u8], at: usize, x: u32)
    requires { at + 4 ≤ length buf.old }
    ensures { buf.new ≡ put buf.old at (le 4 x) }
{
    buf[at..at + 4].copy_from_slice(&x.to_le_bytes());
}

#[tactic(auto, using(crate::proofs::Bytes::stored_8))]
pub fn put_u64(buf: &mut [u8], at: usize, x: u64)
    requires { at + 8 ≤ length buf.old }
    ensures { buf.new ≡ put buf.old at (le 8 x) }
{
    buf[at..at + 8].copy_from_slice(&x.to_le_bytes());
}

// ---- the highest byte first: one load, its bytes turned round, which the compiler makes one instruction of

#[tactic(auto, using(crate::proofs::Bytes::turned_2))]
pub fn read_u16_be(s: &[u8], at: usize) -> u16
    requires { at + 2 ≤ length s.now }
    ensures { result ≡ be_at 2 s.now at }
{
    read_u16(s, at).swap_bytes()
}

#[tactic(auto, using(crate::proofs::Bytes::turned_4, crate::proofs::Bytes::halves_4))]
pub fn read_u32_be(s: &[u8], at: usize) -> u32
    requires { at + 4 ≤ length s.now }
    ensures { result ≡ be_at 4 s.now at }
{
    read_u32(s, at).swap_bytes()
}

#[tactic(auto, using(crate::proofs::Bytes::turned_8))]
pub fn read_u64_be(s: &[u8], at: usize) -> u64
    requires { at + 8 ≤ length s.now }
    ensures { result ≡ be_at 8 s.now at }
{
    read_u64(s, at).swap_bytes()
}
