// A page's parts: one decoder of a record at a slot, for leaf, index and history pages; its prefix, lent on.
#![tactic(auto)]

ghost use Rattle.std.specs.Prelude.{◌≡◌, ◌+◌, ◌≤◌, ◌<◌, true, false, length, Some, None};
ghost use Rattle.frames.specs.declared.Body.{Body};
ghost use Rattle.frames.specs.Layout.{Inside};
ghost use Rattle.values.specs.Keys.{ver_in, key_at};
ghost use Rattle.values.specs.Vals.{val_of, val_at, front_places};
ghost use Rattle.values.specs.declared.Val.{Val};
ghost use Rattle.records.specs.Records.{slot_at, key_in, key_at_slot, val_in, rec_in, rec_at, child_of, Quickly, ShortKey};
ghost use Rattle.records.specs.Parts.{prefix_in};

use frames::{Addr, BaseHeader, Body, NULL_ADDR};
use order::Ver;
use values::{HistRef, KeyParts, Val};

// A value with its remote resolved: where its bytes stand, and the remote frame's address or 0.
#[derive(Clone, Copy)]
pub struct ValParts {
    pub hist: HistRef,
    pub val_at: usize,
    pub val_len: usize,
    pub remote: Addr,
    pub next: usize,
}

// A record's places: where it begins, its version, key rest, value; what follows it.
#[derive(Clone, Copy)]
pub struct Rec {
    pub from: usize,
    pub ver_at: usize,
    pub rest_at: usize,
    pub rest_len: usize,
    pub hist: HistRef,
    pub val_at: usize,
    pub val_len: usize,
    pub remote: Addr,
    pub next: usize,
}

// Where the record of slot i starts. `sst::marked_at` has a second text of this, for speed.
pub fn slot_at(s: &[u8], b: Body, i: usize) -> Option<usize>
    requires { Inside s.now b }
    ensures { result ≡ slot_at s.now b i }
{
    if b.elems <= i {
        return None;
    }
    let p = b.at + (numbers::read_u32(s, b.at + BaseHeader::HDR_LEN + 4 * i) as usize);
    if p < b.first {
        return None;
    }
    if b.end <= p {
        return None;
    }
    Some(p)
}

// The version at a place that holds one.
pub fn ver_at(s: &[u8], at: usize) -> Ver
    requires { at + 12 ≤ length s.now }
    ensures { result ≡ ver_in s.now at }
{
    Ver::new(numbers::read_u64(s, at), numbers::read_u32(s, at + 8))
}

// The key at a place of a page: whole, it has at most 4,096 bytes.
fn key_in(s: &[u8], b: Body, at: usize) -> Option<KeyParts>
    requires { Inside s.now b }
    ensures { result ≡ key_in s.now b at }
{
    let k = values::key_at(&s[..b.end], at, b.kind)?;
    if BaseHeader::MAX_KEY < b.prefix_len + k.rest_len {
        return None;
    }
    Some(k)
}

// The same. A length of one byte is read here, so that this is small enough to stand in its caller's loop.
fn short_key(s: &[u8], b: Body, at: usize) -> Option<KeyParts>
    requires { Inside s.now b }
    ensures { result ≡ key_in s.now b at }
{
    let e = b.end;
    let t = &s[..e];
    if at < e {
        let n = t[at] as usize;
        if n < 128 {
            if b.kind != Body::HISTORY {
                let skip = values::skip_of(b.kind);
                if skip <= n {
                    if n <= e - at - 1 {
                        if b.prefix_len + (n - skip) <= BaseHeader::MAX_KEY {
                            return Some(KeyParts {
                                ver_at: at + 1,
                                rest_at: at + 1 + skip,
                                rest_len: n - skip,
                            });
                        }
                    }
                }
            }
        }
    }
    key_in(s, b, at)
}

// The key of slot i: all that a search reads.
pub fn key_at(s: &[u8], b: Body, i: usize) -> Option<KeyParts>
    requires { Inside s.now b }
    ensures { result ≡ key_at_slot s.now b i }
{
    let p = slot_at(s, b, i)?;
    short_key(s, b, p)
}

// The value at a place of a page, and its remote frame judged with it; only a leaf's head has history.
fn val_in(s: &[u8], b: Body, at: usize) -> Option<ValParts>
    requires { Inside s.now b }
    ensures { result ≡ val_in s.now b at }
{
    let v = Val::decode_from(&s[..b.end], at, b.kind == Body::LEAF)?;
    match v {
        Val::Inline {
            hist,
            at: p,
            size,
            next,
        } => Some(ValParts {
            hist,
            val_at: p,
            val_len: size,
            remote: NULL_ADDR,
            next,
        }),
        Val::Remote {
            hist,
            addr,
            size,
            next,
        } => {
            let q = frames::remote_at(s, addr, size as u32)?;
            Some(ValParts {
                hist,
                val_at: q,
                val_len: size,
                remote: addr,
                next,
            })
        }
    }
}

// The record at a place of a page.
fn rec_in(s: &[u8], b: Body, p: usize) -> Option<Rec>
    requires { Inside s.now b }
    ensures { result ≡ rec_in s.now b p }
{
    let k = key_in(s, b, p)?;
    let q = k.rest_at + k.rest_len;
    if b.kind == Body::INDEX {
        if b.end < q + 8 {
            return None;
        }
        return Some(Rec {
            from: p,
            ver_at: k.ver_at,
            rest_at: k.rest_at,
            rest_len: k.rest_len,
            hist: HistRef::NONE,
            val_at: q,
            val_len: 8,
            remote: NULL_ADDR,
            next: q + 8,
        });
    }
    let val = val_in(s, b, q)?;
    Some(Rec {
        from: p,
        ver_at: k.ver_at,
        rest_at: k.rest_at,
        rest_len: k.rest_len,
        hist: val.hist,
        val_at: val.val_at,
        val_len: val.val_len,
        remote: val.remote,
        next: val.next,
    })
}

// The record of slot i. `quick_head` and `quick_old` read the common record by a second text, for speed.
pub fn rec_at(s: &[u8], b: Body, i: usize) -> Option<Rec>
    requires { Inside s.now b }
    ensures { result ≡ rec_at s.now b i }
{
    let p = slot_at(s, b, i)?;
    rec_in(s, b, p)
}

// ---- the common record, for the loop that takes many steps: a value that stands in its page, a head's key with a length of one byte. Any
// other is left to the decoder above: the answer is then None, which says nothing.

// A value's size and bytes behind its front.
fn bytes_at(t: &[u8], at: usize, h: HistRef) -> Option<Val>
    ensures { result ≡ val_of t.now (Some (front_places h false at)) }
{
    if spans::room(t.len(), at, 4) {
        let n = numbers::read_u32(t, at) as usize;
        if BaseHeader::MAX_VALUE < n {
            return None;
        }
        let p = at + 4;
        if n <= t.len() - p {
            return Some(Val::Inline {
                hist: h,
                at: p,
                size: n,
                next: p + n,
            });
        }
    }
    None
}

// A head's value.
fn head_val(t: &[u8], at: usize) -> Option<Val>
    ensures { Quickly None result (val_at t.now at true) }
{
    if at < t.len() {
        let f = t[at];
        if f == 0 {
            return bytes_at(t, at + 1, HistRef::NONE);
        }
        if f == 1 {
            if spans::room(t.len(), at + 1, 14) {
                let count = numbers::read_u32(t, at + 1 + 10);
                if count != 0 {
                    let h = HistRef {
                        page: Addr(numbers::read_u64(t, at + 1)),
                        slot: numbers::read_u16(t, at + 1 + 8),
                        count,
                    };
                    return bytes_at(t, at + 1 + 14, h);
                }
            }
        }
    }
    None
}

// An old version's value.
fn old_val(t: &[u8], at: usize) -> Option<Val>
    ensures { Quickly None result (val_at t.now at false) }
{
    if at < t.len() {
        if t[at] == 0 {
            return bytes_at(t, at + 1, HistRef::NONE);
        }
    }
    None
}

// The value of a leaf's head, at a place.
pub fn quick_value(s: &[u8], b: Body, at: usize) -> Option<ValParts>
    requires inside { Inside s.now b }
    requires kind_value { b.kind ≡ 0 }
    ensures { Quickly None result (val_in s.now b at) }
{
    let v = head_val(&s[..b.end], at)?;
    match v {
        Val::Inline {
            hist,
            at: p,
            size,
            next,
        } => Some(ValParts {
            hist,
            val_at: p,
            val_len: size,
            remote: NULL_ADDR,
            next,
        }),
        _ => None,
    }
}

// The length byte of a leaf's key at a place, version included; 0 where the key has no length of one byte, or may be too long with its prefix.
pub fn quick_key(s: &[u8], b: Body, p: usize) -> usize
    requires inside { Inside s.now b }
    requires kind_value { b.kind ≡ 0 }
    requires p_lt_end { p < b.end }
    ensures { (result ≡ 0 → ⊥) → ShortKey s.now b p result }
{
    let e = b.end;
    let t = &s[..e];
    let n = t[p] as usize;
    if n < 12 {
        return 0;
    }
    if 127 < n {
        return 0;
    }
    if e - p - 1 < n {
        return 0;
    }
    if 3980 < b.prefix_len {
        return 0;
    }
    n
}

// The head at a place of a leaf.
fn head_in(s: &[u8], b: Body, p: usize) -> Option<Rec>
    requires inside { Inside s.now b }
    requires kind_value { b.kind ≡ 0 }
    requires p_lt_end { p < b.end }
    ensures { Quickly None result (rec_in s.now b p) }
{
    let n = quick_key(s, b, p);
    if n == 0 {
        return None;
    }
    let val = quick_value(s, b, p + 1 + n)?;
    Some(Rec {
        from: p,
        ver_at: p + 1,
        rest_at: p + 1 + 12,
        rest_len: n - 12,
        hist: val.hist,
        val_at: val.val_at,
        val_len: val.val_len,
        remote: val.remote,
        next: val.next,
    })
}

// The old version at a place of a history page.
fn old_in(s: &[u8], b: Body, p: usize) -> Option<Rec>
    requires inside { Inside s.now b }
    requires kind_value { b.kind ≡ 2 }
    ensures { Quickly None result (rec_in s.now b p) }
{
    if spans::room(b.end, p, 12) {
        if b.prefix_len <= BaseHeader::MAX_KEY {
            let v = old_val(&s[..b.end], p + 12)?;
            match v {
                Val::Inline {
                    hist,
                    at,
                    size,
                    next,
                } => {
                    return Some(Rec {
                        from: p,
                        ver_at: p,
                        rest_at: p + 12,
                        rest_len: 0,
                        hist,
                        val_at: at,
                        val_len: size,
                        remote: NULL_ADDR,
                        next,
                    });
                }
                _ => {}
            }
        }
    }
    None
}

// The head of slot i of a leaf: a second text of `rec_at`, for speed, that may answer "not read here". `Quickly` says that what it reads is the same.
pub fn quick_head(s: &[u8], b: Body, i: usize) -> Option<Rec>
    requires inside { Inside s.now b }
    requires kind_value { b.kind ≡ 0 }
    ensures { Quickly None result (rec_at s.now b i) }
{
    let p = slot_at(s, b, i)?;
    head_in(s, b, p)
}

// The old version of slot i of a history page, likewise.
pub fn quick_old(s: &[u8], b: Body, i: usize) -> Option<Rec>
    requires inside { Inside s.now b }
    requires kind_value { b.kind ≡ 2 }
    ensures { Quickly None result (rec_at s.now b i) }
{
    let p = slot_at(s, b, i)?;
    old_in(s, b, p)
}

// The head at a place of a leaf that ends at e, any in form: `rec_in` by numbers. A loop that would hand on a `Body` copies it at every turn.
pub fn head_by(s: &[u8], e: usize, prefix: usize, p: usize) -> Option<Rec>
    requires { (e ≤ length s.now) × (prefix ≤ e) }
    ensures { (b : Body) → b.kind ≡ 0 → b.end ≡ e → b.prefix_len ≡ prefix → result ≡ rec_in s.now b p }
{
    let k = values::key_at(&s[..e], p, Body::LEAF)?;
    if BaseHeader::MAX_KEY < prefix + k.rest_len {
        return None;
    }
    let v = Val::decode_from(&s[..e], k.rest_at + k.rest_len, true)?;
    match v {
        Val::Inline {
            hist,
            at,
            size,
            next,
        } => Some(Rec {
            from: p,
            ver_at: k.ver_at,
            rest_at: k.rest_at,
            rest_len: k.rest_len,
            hist,
            val_at: at,
            val_len: size,
            remote: NULL_ADDR,
            next,
        }),
        Val::Remote {
            hist,
            addr,
            size,
            next,
        } => {
            let q = frames::remote_at(s, addr, size as u32)?;
            Some(Rec {
                from: p,
                ver_at: k.ver_at,
                rest_at: k.rest_at,
                rest_len: k.rest_len,
                hist,
                val_at: q,
                val_len: size,
                remote: addr,
                next,
            })
        }
    }
}

// ---- a child, for the check of an index page

// A child's places: where it begins, and its key; the page id stands behind the key.
#[derive(Clone, Copy)]
pub struct ChildParts {
    pub from: usize,
    pub ver_at: usize,
    pub rest_at: usize,
    pub rest_len: usize,
}

// The key of an index page at a place, the page ends where t ends. A length of one byte is read here, so that this is small enough to stand in a loop.
fn child_key(t: &[u8], at: usize) -> Option<KeyParts>
    ensures { result ≡ key_at t.now at 1 }
{
    if at < t.len() {
        let n = t[at] as usize;
        if n < 128 {
            if n <= t.len() - at - 1 {
                return Some(KeyParts {
                    ver_at: at + 1,
                    rest_at: at + 1,
                    rest_len: n,
                });
            }
        }
    }
    values::key_at(t, at, Body::INDEX)
}

// The child of slot i of an index page: a second text of `rec_at`, for speed. No `Body` is handed on, so a loop over the slots keeps it out of memory.
pub fn child_at(s: &[u8], b: Body, i: usize) -> Option<ChildParts>
    requires inside { Inside s.now b }
    requires kind_value { b.kind ≡ 1 }
    ensures { rec_at s.now b i ≡ child_of result }
{
    let p = slot_at(s, b, i)?;
    let k = child_key(&s[..b.end], p)?;
    if BaseHeader::MAX_KEY < b.prefix_len + k.rest_len {
        return None;
    }
    if b.end < k.rest_at + k.rest_len + 8 {
        return None;
    }
    Some(ChildParts {
        from: p,
        ver_at: k.ver_at,
        rest_at: k.rest_at,
        rest_len: k.rest_len,
    })
}

// ---- parts of the lent arena: the empty part where a place is outside it

// The prefix that a page's keys drop: the first bytes of lo.
pub fn prefix_of(s: &[u8], b: Body) -> &[u8]
    requires { Inside s.now b }
    ensures { result.now ≡ prefix_in s.now b }
{
    spans::part_of(s, b.at + BaseHeader::HDR_LEN + 4 * b.elems, b.prefix_len)
}
