// Stretches of a byte slice: stored, copied, zeroed, and lent on. The lowest crate: every store of the library is one `put`.
#![tactic(auto)]

ghost use Rattle.std.specs.Prelude.{◌≡◌, ◌+◌, ◌-◌, ◌^◌, ◌≤◌, ◌<◌, cond, leb, length, replicate};
ghost use Rattle.spans.specs.Span.{part, part_or, put};

// Stores all of src from at on. A loop: the slice's own `copy_from_slice` becomes a call of memmove, which an archive for C would need from outside.
pub fn copy(dst: &mut [u8], at: usize, src: &[u8])
    requires { at + length src.now ≤ length dst.old }
    ensures { dst.new ≡ put dst.old at src.now }
{
    for j in 0..src.len() {
        dst[at + j] = src[j];
    }
}

// Stores the n bytes from index from on once more, from index to on, which lies behind them. A loop, too: the slice's own `copy_within` stores the last
// byte first, and merges of values of 4,000 bytes take 1.4 times as long.
pub fn copy_within(arena: &mut [u8], from: usize, to: usize, n: usize)
    requires { (from + n ≤ to) × (to + n ≤ length arena.old) }
    ensures { arena.new ≡ put arena.old to (part arena.old from n) }
{
    for j in 0..n {
        arena[to + j] = arena[from + j];
    }
}

// Stores n zeros from at on.
pub fn zeros(dst: &mut [u8], at: usize, n: usize)
    requires { at + n ≤ length dst.old }
    ensures { dst.new ≡ put dst.old at (replicate n 0) }
{
    dst[at..at + n].fill(0);
}

// The difference, 0 where it would be less.
pub fn less(a: usize, b: usize) -> usize
    ensures { result ≡ a - b }
{
    a.saturating_sub(b)
}

// The next index of a walk, or, back, the one before, not below 0.
pub fn onward(back: bool, i: usize) -> usize
    requires { i + 1 < 2 ^ 64 }
    ensures { result ≡ cond back (i - 1) (i + 1) }
{
    if back { i.saturating_sub(1) } else { i + 1 }
}

// Whether n bytes from at on lie in len: no sum that could wrap.
pub fn room(len: usize, at: usize, n: usize) -> bool
    ensures { result ≡ leb (at + n) len }
{
    n <= len && at <= len - n
}

// The n bytes from at on, lent on; the empty part where they are not all there. Total, so its callers show nothing.
#[tactic(auto, unfolding(crate::specs::Span::part, crate::specs::Span::part_or))]
pub fn part_of(s: &[u8], at: usize, n: usize) -> &[u8]
    ensures { result.now ≡ part_or s.now at n }
{
    if room(s.len(), at, n) {
        &s[at..at + n]
    } else {
        &[]
    }
}
