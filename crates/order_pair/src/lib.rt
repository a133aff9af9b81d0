// Two strings of one length, told apart by two numbers: what a search asks of a key at every turn. A second text of `order::compare`, for speed:
// `StandsAs` says that the numbers stand as the strings do.
#![tactic(auto)]

ghost use Rattle.std.specs.Prelude.{◌≡◌, ◌+◌, ◌≤◌, length, take};
ghost use Rattle.order_pair.specs.Word.{word_of};
ghost use Rattle.order_pair.specs.Apart.{StandsAs};

// How far the first n bytes of two strings are the same, sixteen at a time.
fn pairs(a: &[u8], b: &[u8], n: usize) -> usize
    requires { (n ≤ length a.now) × (n ≤ length b.now) }
    ensures { (result ≤ n) × (take result a.now ≡ take result b.now) }
{
    for k in 0..n / 16 {
        let i = 16 * k;
        if numbers::read_u64(a, i) != numbers::read_u64(b, i)
            || numbers::read_u64(a, i + 8) != numbers::read_u64(b, i + 8)
        {
            return i;
        }
    }
    n - n % 16
}

// The same, eight at a time: plain loads, in either byte order.
fn same(a: &[u8], b: &[u8], n: usize) -> usize
    requires { (n ≤ length a.now) × (n ≤ length b.now) }
    ensures { (result ≤ n) × (take result a.now ≡ take result b.now) }
{
    let from = pairs(a, b, n);
    for k in 0..(n - from) / 8 {
        let i = from + 8 * k;
        if numbers::read_u64(a, i) != numbers::read_u64(b, i) {
            return i;
        }
    }
    n - (n - from) % 8
}

// Where eight bytes decide: behind what is the same, or the last eight.
#[tactic(auto, using(crate::proofs::Overlap::nearer))]
fn spot_of(a: &[u8], b: &[u8], n: usize) -> usize
    requires le_n { 8 ≤ n }
    requires n_in_bounds { (n ≤ length a.now) × (n ≤ length b.now) }
    ensures { (result + 8 ≤ n) × (take result a.now ≡ take result b.now) }
{
    let i = same(a, b, n);
    if 8 <= n - i {
        return i;
    }
    n - 8
}

// A number for a string of fewer than eight bytes, that stands as the string does among those of its length: two words that may overlap.
fn word_of(t: &[u8]) -> u64
    ensures { result ≡ word_of t.now }
{
    let n = t.len();
    if 4 <= n {
        let x = numbers::read_u32_be(t, 0) as u64;
        let y = numbers::read_u32_be(t, n - 4) as u64;
        return 4294967296 * x + y;
    }
    if 2 <= n {
        let x = numbers::read_u16_be(t, 0) as u64;
        let y = numbers::read_u16_be(t, n - 2) as u64;
        return 65536 * x + y;
    }
    if n == 1 {
        return t[0] as u64;
    }
    0
}

// Two numbers that stand as two strings do, where they differ; whether they say all of the strings, where they are the same.
#[derive(Clone, Copy)]
pub struct Pair {
    pub x: u64,
    pub y: u64,
    pub whole: bool,
}

pub fn pair_of(a: &[u8], b: &[u8]) -> Pair
    requires { length a.now ≡ length b.now }
    ensures { StandsAs a.now b.now result }
{
    let n = b.len();
    if n < 8 {
        return Pair {
            x: word_of(a),
            y: word_of(b),
            whole: true,
        };
    }
    let k = spot_of(a, b, n);
    Pair {
        x: numbers::read_u64_be(a, k),
        y: numbers::read_u64_be(b, k),
        whole: k + 8 == n,
    }
}
