// Versions, keys and values as a page holds them: read from arbitrary bytes, and stored where they fit.
#![tactic(auto)]

ghost use Rattle.std.specs.Prelude.{◌≡◌, ◌+◌, ◌≤◌, true, leb, length};
ghost use Rattle.spans.specs.Span.{put, Stored};
ghost use Rattle.frames.specs.Limits.{max_key, max_value};
ghost use Rattle.values.specs.Keys.{ver_bytes, leaf_front, leaf_key, index_key, leaf_key_size, index_key_size, skip_of, key_at};
ghost use Rattle.values.specs.Vals.{flag_of, hist_bytes, front_bytes, front_size, inline_bytes, remote_bytes, hist_size, size_of, ref_at, front_at, val_at};

use frames::{Addr, BaseHeader, Body, NULL_ADDR};
use order::Ver;

// ---- versions

fn store_ver(buf: &mut [u8], at: usize, v: Ver)
    requires { at + 12 ≤ length buf.old }
    ensures { buf.new ≡ put buf.old at (ver_bytes v) }
{
    numbers::put_u64(buf, at, v.txid);
    numbers::put_u32(buf, at + 8, v.cmd);
}

// Stores a version where it fits, and returns the number of bytes stored: 12, or 0.
pub fn write_ver(buf: &mut [u8], at: usize, v: Ver) -> usize
    ensures { Stored true buf.old at (ver_bytes v) result buf.new }
{
    if spans::room(buf.len(), at, Ver::LEN) {
        store_ver(buf, at, v);
        return 12;
    }
    0
}

// ---- keys

// Where a key's version stands, its rest, and how long that is.
#[derive(Clone, Copy)]
pub struct KeyParts {
    pub ver_at: usize,
    pub rest_at: usize,
    pub rest_len: usize,
}

// The bytes before a key's rest that are its version: an index key has none.
pub fn skip_of(kind: u8) -> usize
    ensures { result ≡ skip_of kind }
{
    if kind == Body::INDEX { 0 } else { 12 }
}

// The key at a place of a page that ends where s ends: of a leaf (0), an index page (1) or a history page (2).
pub fn key_at(s: &[u8], at: usize, kind: u8) -> Option<KeyParts>
    ensures { result ≡ key_at s.now at kind }
{
    if kind == 2 {
        if spans::room(s.len(), at, Ver::LEN) {
            return Some(KeyParts {
                ver_at: at,
                rest_at: at + 12,
                rest_len: 0,
            });
        }
        return None;
    }
    let Some((v, next)) = lengths::read(s, at) else {
        return None;
    };
    let n = v as usize;
    let skip = skip_of(kind);
    if n < skip {
        return None;
    }
    if spans::room(s.len(), next, n) {
        return Some(KeyParts {
            ver_at: next,
            rest_at: next + skip,
            rest_len: n - skip,
        });
    }
    None
}

// The size of a leaf key with a rest of n bytes.
pub fn leaf_key_size(n: u16) -> usize
    ensures { result ≡ leaf_key_size n }
{
    let whole = 12 + (n as usize);
    lengths::size(whole as u32) + whole
}

// The size of an index key of n bytes.
pub fn index_key_size(n: u16) -> usize
    ensures { result ≡ index_key_size n }
{
    lengths::size(n as u32) + (n as usize)
}

// The length and version of a leaf key with a rest of n bytes; the index behind them.
fn store_leaf_front(buf: &mut [u8], at: usize, v: Ver, n: usize) -> usize
    requires { (n ≤ max_key) × (at + length (leaf_front v n) ≤ length buf.old) }
    ensures { (result ≡ at + length (leaf_front v n)) × (buf.new ≡ put buf.old at (leaf_front v n)) }
{
    let k = lengths::write(buf, at, (12 + n) as u32);
    let p = at + k;
    store_ver(buf, p, v);
    p + 12
}

// Stores the length and version of a leaf key whose rest has n bytes, at most 4,096, where they fit; the number of bytes stored, or 0.
// A builder copies the rest behind them.
pub fn write_leaf_front(buf: &mut [u8], at: usize, v: Ver, n: usize) -> usize
    ensures { Stored (leb n max_key) buf.old at (leaf_front v n) result buf.new }
{
    if BaseHeader::MAX_KEY < n {
        return 0;
    }
    let k = lengths::size((12 + n) as u32) + 12;
    if spans::room(buf.len(), at, k) {
        return store_leaf_front(buf, at, v, n) - at;
    }
    0
}

// Stores a leaf key, its rest at most 4,096 bytes, where it fits; the number of bytes stored, or 0.
pub fn write_leaf_key(buf: &mut [u8], at: usize, v: Ver, rest: &[u8]) -> usize
    ensures { Stored (leb (length rest.now) max_key) buf.old at (leaf_key v rest.now) result buf.new }
{
    let n = rest.len();
    if BaseHeader::MAX_KEY < n {
        return 0;
    }
    let k = lengths::size((12 + n) as u32) + 12 + n;
    if spans::room(buf.len(), at, k) {
        let p = store_leaf_front(buf, at, v, n);
        spans::copy(buf, p, rest);
        return k;
    }
    0
}

// Stores an index key, at most 4,096 bytes, where it fits; the number of bytes stored, or 0.
pub fn write_index_key(buf: &mut [u8], at: usize, rest: &[u8]) -> usize
    ensures { Stored (leb (length rest.now) max_key) buf.old at (index_key rest.now) result buf.new }
{
    let n = rest.len();
    if BaseHeader::MAX_KEY < n {
        return 0;
    }
    let k = lengths::size(n as u32) + n;
    if spans::room(buf.len(), at, k) {
        let p = at + lengths::write(buf, at, n as u32);
        spans::copy(buf, p, rest);
        return k;
    }
    0
}

// ---- values

// A history reference: where the first old version stands, and how many there are; 0 where there is none.
#[derive(Clone, Copy)]
pub struct HistRef {
    pub page: Addr,
    pub slot: u16,
    pub count: u32,
}

impl HistRef {
    pub const NONE: HistRef = HistRef {
        page: NULL_ADDR,
        slot: 0,
        count: 0,
    };
}

// The front of a value: its history, whether its bytes are remote, and the place behind.
#[derive(Clone, Copy)]
pub struct Front {
    pub hist: HistRef,
    pub remote: bool,
    pub next: usize,
}

// A value: its history, where its bytes stand or its remote's address, its size, and the place behind it.
#[derive(Clone, Copy)]
pub enum Val {
    Inline {
        hist: HistRef,
        at: usize,
        size: usize,
        next: usize,
    },
    Remote {
        hist: HistRef,
        addr: Addr,
        size: usize,
        next: usize,
    },
}

fn flag_of(count: u32, remote: bool) -> u8
    ensures { result ≡ flag_of count remote }
{
    if count == 0 {
        if remote { 2 } else { 0 }
    } else {
        if remote { 3 } else { 1 }
    }
}

fn hist_size(has: bool) -> usize
    ensures { result ≡ hist_size has }
{
    if has { 14 } else { 0 }
}

// The size of what stands before a value's bytes or address.
fn front_size(count: u32) -> usize
    ensures { result ≡ front_size count }
{
    if count == 0 { 5 } else { 19 }
}

// A history reference, if there are old versions; the index behind it.
fn store_hist(buf: &mut [u8], at: usize, h: HistRef) -> usize
    requires { at + length (hist_bytes h) ≤ length buf.old }
    ensures { (result ≡ at + length (hist_bytes h)) × (buf.new ≡ put buf.old at (hist_bytes h)) }
{
    if h.count == 0 {
        return at;
    }
    numbers::put_u64(buf, at, h.page.0);
    numbers::put_u16(buf, at + 8, h.slot);
    numbers::put_u32(buf, at + 8 + 2, h.count);
    at + 14
}

// Flag, history and size; the index behind them.
fn store_front(buf: &mut [u8], at: usize, h: HistRef, remote: bool, n: u32) -> usize
    requires { at + length (front_bytes h remote n) ≤ length buf.old }
    ensures { (result ≡ at + length (front_bytes h remote n)) × (buf.new ≡ put buf.old at (front_bytes h remote n)) }
{
    let flag = flag_of(h.count, remote);
    numbers::put_u8(buf, at, flag);
    let p = store_hist(buf, at + 1, h);
    numbers::put_u32(buf, p, n);
    p + 4
}

// The fourteen bytes of a history reference.
fn ref_at(s: &[u8], at: usize, remote: bool) -> Option<Front>
    ensures { result ≡ ref_at s.now at remote }
{
    if spans::room(s.len(), at, 14) {
        let count = numbers::read_u32(s, at + 10);
        if count == 0 {
            return None;
        }
        return Some(Front {
            hist: HistRef {
                page: Addr(numbers::read_u64(s, at)),
                slot: numbers::read_u16(s, at + 8),
                count,
            },
            remote,
            next: at + 14,
        });
    }
    None
}

// Flag and history at a place; only a head has history.
fn front_at(s: &[u8], at: usize, head: bool) -> Option<Front>
    ensures { result ≡ front_at s.now at head }
{
    if s.len() <= at {
        return None;
    }
    let f = s[at];
    if 3 < f {
        return None;
    }
    if (f == 0) | (f == 2) {
        return Some(Front {
            hist: HistRef::NONE,
            remote: f == 2,
            next: at + 1,
        });
    }
    if head {
        return ref_at(s, at + 1, f == 3);
    }
    None
}

impl Val {
    // The value at a place of a page that ends where s ends; head says whether it may have history.
    pub fn decode_from(s: &[u8], at: usize, head: bool) -> Option<Val>
        ensures { result ≡ val_at s.now at head }
    {
        let front = front_at(s, at, head)?;
        if spans::room(s.len(), front.next, 4) {
            let n = numbers::read_u32(s, front.next) as usize;
            if BaseHeader::MAX_VALUE < n {
                return None;
            }
            if front.remote {
                if spans::room(s.len(), front.next, 12) {
                    return Some(Val::Remote {
                        hist: front.hist,
                        addr: Addr(numbers::read_u64(s, front.next + 4)),
                        size: n,
                        next: front.next + 12,
                    });
                }
                return None;
            }
            let p = front.next + 4;
            if spans::room(s.len(), p, n) {
                return Some(Val::Inline {
                    hist: front.hist,
                    at: p,
                    size: n,
                    next: p + n,
                });
            }
        }
        None
    }

    // The whole size of a value of n bytes at an inline limit: 5 + n or 13, with history 14 more.
    pub fn calc_size(has_hist: bool, limit: usize, n: u32) -> usize
        ensures { result ≡ size_of has_hist limit n }
    {
        let front = hist_size(has_hist);
        if (n as usize) < limit {
            return front + (5 + (n as usize));
        }
        front + 13
    }

    // Stores flag, history and size of a value of n bytes, at most 65,536, where they fit; the number of bytes stored, or 0.
    // A builder copies the bytes, or stores the address, behind them.
    pub fn write_front(buf: &mut [u8], at: usize, h: HistRef, remote: bool, n: usize) -> usize
        ensures { Stored (leb n max_value) buf.old at (front_bytes h remote n) result buf.new }
    {
        if BaseHeader::MAX_VALUE < n {
            return 0;
        }
        let k = front_size(h.count);
        if spans::room(buf.len(), at, k) {
            return store_front(buf, at, h, remote, n as u32) - at;
        }
        0
    }

    // Stores a value with its bytes, at most 65,536, where it fits; the number of bytes stored, or 0.
    pub fn encode_inline(buf: &mut [u8], at: usize, h: HistRef, v: &[u8]) -> usize
        ensures { Stored (leb (length v.now) max_value) buf.old at (inline_bytes h v.now) result buf.new }
    {
        let n = v.len();
        if BaseHeader::MAX_VALUE < n {
            return 0;
        }
        let k = front_size(h.count) + n;
        if spans::room(buf.len(), at, k) {
            let p = store_front(buf, at, h, false, n as u32);
            spans::copy(buf, p, v);
            return k;
        }
        0
    }

    // Stores a value of n bytes, at most 65,536, that stand in a remote frame, where it fits; the number of bytes stored, or 0.
    pub fn encode_remote(buf: &mut [u8], at: usize, h: HistRef, n: usize, a: Addr) -> usize
        ensures { Stored (leb n max_value) buf.old at (remote_bytes h n a.0) result buf.new }
    {
        if BaseHeader::MAX_VALUE < n {
            return 0;
        }
        let k = front_size(h.count) + 8;
        if spans::room(buf.len(), at, k) {
            let p = store_front(buf, at, h, true, n as u32);
            numbers::put_u64(buf, p, a.0);
            return k;
        }
        0
    }
}
