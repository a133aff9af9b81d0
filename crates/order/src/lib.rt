// The order of byte strings, compared eight bytes at a time, and the order of versions.
#![tactic(auto)]

ghost use Rattle.std.specs.Prelude.{◌≡◌, ◌++◌, ◌≤◌, length, drop};
ghost use Rattle.order.specs.Order.{cmp_bytes, is_equal, is_less, starts_with};
ghost use Rattle.order.specs.Bounds.{below_by, meet};
ghost use Rattle.order.specs.Version.{ver_of, newer_than};

use std::cmp::Ordering;

// What is left behind index from, byte by byte.
fn by_ones(a: &[u8], b: &[u8], from: usize) -> Ordering
    requires { (from ≤ length a.now) × (from ≤ length b.now) }
    ensures { result ≡ cmp_bytes (drop from a.now) (drop from b.now) }
{
    for i in from..a.len().min(b.len()) {
        if a[i] != b[i] {
            return a[i].cmp(&b[i]);
        }
    }
    a.len().cmp(&b.len())
}

// The same, two bytes first. A text for each width: one over the width and its reader would be no plainer.
fn by_twos(a: &[u8], b: &[u8], from: usize) -> Ordering
    requires { (from ≤ length a.now) × (from ≤ length b.now) }
    ensures { result ≡ cmp_bytes (drop from a.now) (drop from b.now) }
{
    if a.len().min(b.len()) - from < 2 {
        return by_ones(a, b, from);
    }
    let x = numbers::read_u16_be(a, from);
    let y = numbers::read_u16_be(b, from);
    if x != y {
        return x.cmp(&y);
    }
    by_ones(a, b, from + 2)
}

// The same, four bytes first.
fn by_fours(a: &[u8], b: &[u8], from: usize) -> Ordering
    requires { (from ≤ length a.now) × (from ≤ length b.now) }
    ensures { result ≡ cmp_bytes (drop from a.now) (drop from b.now) }
{
    if a.len().min(b.len()) - from < 4 {
        return by_twos(a, b, from);
    }
    let x = numbers::read_u32_be(a, from);
    let y = numbers::read_u32_be(b, from);
    if x != y {
        return x.cmp(&y);
    }
    by_twos(a, b, from + 4)
}

// Two byte strings, a proper prefix first. Strings of one length are also told apart by `order_pair::pair_of`, for speed. Eight bytes at a time, then four,
// two and one: by the slices' own `cmp` an edit that leaves eight bytes unread would be refused for its form alone (must-fail/eight_unread.edit), and with
// that `cmp` for what is shorter than four, builds of keys of six bytes take a fifth more instructions.
pub fn compare(a: &[u8], b: &[u8]) -> Ordering
    ensures { result ≡ cmp_bytes a.now b.now }
{
    let n = a.len().min(b.len());
    for k in 0..n / 8 {
        let x = numbers::read_u64_be(a, 8 * k);
        let y = numbers::read_u64_be(b, 8 * k);
        if x != y {
            return x.cmp(&y);
        }
    }
    by_fours(a, b, n - n % 8)
}

pub fn is_equal(c: Ordering) -> bool
    ensures { result ≡ is_equal c }
{
    c.is_eq()
}

pub fn is_less(c: Ordering) -> bool
    ensures { result ≡ is_less c }
{
    c.is_lt()
}

// Whether the bytes p begin s. Speed: with the slices' own `starts_with`, `strip_prefix` and `==`, here and below, the check of keys of 64 bytes takes
// 1.2 times as long (0.44 of the Rust's, not 0.36), builds 1.1 times: their scan then has more callers than `compare`, and stays a call.
#[tactic(auto, using(crate::proofs::Library::begins, crate::proofs::Library::begins_not))]
pub fn starts_with(p: &[u8], s: &[u8]) -> bool
    ensures { result ≡ starts_with p.now s.now }
{
    p.len() <= s.len() && is_equal(compare(p, &s[..p.len()]))
}

// A string in two parts, p and r behind it, against x: x's first bytes against p, and r where they are p.
pub fn compare_joined(p: &[u8], r: &[u8], x: &[u8]) -> Ordering
    ensures { result ≡ cmp_bytes (p.now ++ r.now) x.now }
{
    if starts_with(p, x) {
        compare(r, &x[p.len()..])
    } else {
        compare(p, x)
    }
}

// ---- boundaries

// Whether what compares so with hi is below it; an empty hi is none.
pub fn below_by(c: Ordering, hi: &[u8]) -> bool
    ensures { result ≡ below_by c hi.now }
{
    hi.is_empty() || is_less(c)
}

// Whether a page that ends at hi meets one that begins at lo.
#[tactic(auto, using(crate::proofs::Library::met, crate::proofs::Library::met_not))]
pub fn meets(hi: &[u8], lo: &[u8]) -> bool
    ensures { result ≡ meet hi.now lo.now }
{
    !hi.is_empty() && is_equal(compare(hi, lo))
}

// A version: the writing transaction and the number of the command in it.
#[derive(Clone, Copy, PartialEq, Eq, PartialOrd, Ord)]
pub struct Ver {
    pub txid: u64,
    pub cmd: u32,
}

impl Ver {
    pub const LEN: usize = 12;

    pub fn new(txid: u64, cmd: u32) -> Ver
        ensures { result ≡ ver_of txid cmd }
    {
        Ver { txid, cmd }
    }

    // Larger txid, then larger cmd, is newer.
    pub fn newer(self, other: Ver) -> bool
        ensures { result ≡ newer_than self other }
    {
        self > other
    }
}
