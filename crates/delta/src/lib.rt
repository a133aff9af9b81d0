// Deltas: one change of a page as a frame of its own. A leaf delta holds a key with its version and a value, an index delta a key and a
// page id. A call judges its input, then stores all its frames, the remote frame first; readers take any buffer and any address.
#![tactic(auto)]

ghost use Rattle.std.specs.Prelude.{◌≡◌, ◌+◌, ◌≤◌, length};
ghost use Rattle.spans.specs.Span.{put};
ghost use Rattle.frames.specs.Layout.{delta_key_at};
ghost use Rattle.frames.specs.Limits.{max_key, max_limit, max_value};
ghost use Rattle.build_image.specs.Call.{call_of};
ghost use Rattle.delta.specs.Deltas.{value_of, remote_of, delta_head, leaf_frame, index_frame, leaf_len, index_len};
ghost use Rattle.delta.specs.Built.{address_or, leaf_built, leaf_arena, index_built, index_arena, pair_ok};
ghost use Rattle.delta.specs.Read.{delta_is, key_in, leaf_key_at, index_key_at, value_to, val_in, value_at, child_at};

use build_image::Call;
use frames::{Addr, BaseHeader, BoxHeader, Delta, NULL_ADDR, PageId, Refusal};
use order::Ver;
use pages::Place;
use values::{HistRef, KeyParts, Val};

// ---- judging

// "A delta's key and value over their limits are 3".
fn lengths_ok(key: usize, value: usize) -> bool
    ensures { result ≡ pair_ok key value }
{
    (key <= BaseHeader::MAX_KEY) & (value <= BaseHeader::MAX_VALUE)
}

// A leaf delta's frame, rounded.
fn leaf_len(limit: usize, key: usize, value: usize) -> usize
    requires { (key ≤ max_key) × (value ≤ max_value) × (limit ≤ max_limit) }
    ensures { result ≡ leaf_len limit key value }
{
    let k = values::leaf_key_size(key as u16);
    let v = Val::calc_size(false, limit, value as u32);
    frames::frame_len((8 + k + v) as u32)
}

// An index delta's frame, rounded.
fn index_len(key: usize) -> usize
    requires { key ≤ max_key }
    ensures { result ≡ index_len key }
{
    let k = values::index_key_size(key as u16);
    frames::frame_len((8 + k + 8) as u32)
}

// A delta's address behind its remote frame; 0 where the clerk has no room for both.
fn placed(next: usize, limit: usize, remote: usize, len: usize) -> usize
    requires { (8 ≤ next) × (remote + len ≤ 1000000) }
    ensures { result ≡ address_or next limit remote len }
{
    let t = clerks::alloc_from(Addr(next as u64), limit as u64, remote as u64);
    if t.addr.0 == 0 {
        return 0;
    }
    let d = clerks::alloc_from(t.clerk.next, t.clerk.limit, len as u64);
    d.addr.0 as usize
}

// ---- writing

// The remote frame of a value at or above the limit; nothing below it.
fn put_remote(a: &mut [u8], at: usize, m: Call, v: &[u8])
    requires v_len_bound { length v.now ≤ max_value }
    requires v_in_bounds { at + length (remote_of m v.now) ≤ length a.old }
    ensures { a.new ≡ put a.old at (remote_of m v.now) }
{
    let n = v.len();
    if n < m.limit {
        return;
    }
    build_history::remote_frame(a, 0, v, false, 0, n, at, m);
}

// A value: its bytes, or the address of its remote frame.
fn put_value(a: &mut [u8], at: usize, limit: usize, remote: usize, v: &[u8])
    requires v_len_bound { length v.now ≤ max_value }
    requires v_in_bounds { at + length (value_of limit remote v.now) ≤ length a.old }
    ensures { a.new ≡ put a.old at (value_of limit remote v.now) }
{
    let n = v.len();
    if n < limit {
        let i = Val::encode_inline(a, at, HistRef::NONE, v);
    } else {
        let r = Val::encode_remote(a, at, HistRef::NONE, n, Addr(remote as u64));
    }
}

// A delta's box header and its two lengths.
fn put_head(a: &mut [u8], at: usize, m: Call, node: u8, k: usize, v: usize)
    requires delta_key_at_in_bounds { at + delta_key_at ≤ length a.old }
    requires v_bound { k + v ≤ 1000000 }
    ensures { a.new ≡ put a.old at (delta_head m node k v) }
{
    let h = BoxHeader {
        payload_size: (8 + k + v) as u32,
        box_kind: BoxHeader::DELTA,
        node_type: node,
        flag: 0,
        group: m.group,
        link: NULL_ADDR,
        txid: m.txid,
        lsn: m.lsn,
    };
    frames::put_box(a, at, h);
    let p = at + BoxHeader::HDR_LEN;
    numbers::put_u32(a, p, k as u32);
    numbers::put_u32(a, p + 4, v as u32);
}

// A leaf delta's frame; its remote frame stands at remote.
fn put_leaf(a: &mut [u8], at: usize, m: Call, remote: usize, ver: Ver, key: &[u8], v: &[u8])
    requires key_len_bound { (length key.now ≤ max_key) × (length v.now ≤ max_value) × (m.limit ≤ max_limit) }
    requires v_in_bounds { at + length (leaf_frame m remote ver key.now v.now) ≤ length a.old }
    ensures { a.new ≡ put a.old at (leaf_frame m remote ver key.now v.now) }
{
    let k = values::leaf_key_size(key.len() as u16);
    let n = Val::calc_size(false, m.limit, v.len() as u32);
    let z = frames::frame_len((8 + k + n) as u32) - (BoxHeader::HDR_LEN + (8 + k + n));
    put_head(a, at, m, BoxHeader::LEAF, k, n);
    let p = at + Delta::KEY_AT;
    let w = values::write_leaf_key(a, p, ver, key);
    let q = p + k;
    put_value(a, q, m.limit, remote, v);
    let e = q + n;
    spans::zeros(a, e, z);
}

// An index delta's frame.
fn put_index(a: &mut [u8], at: usize, m: Call, key: &[u8], page: PageId)
    requires key_len_bound { length key.now ≤ max_key }
    requires page_in_bounds { at + length (index_frame m key.now page) ≤ length a.old }
    ensures { a.new ≡ put a.old at (index_frame m key.now page) }
{
    let k = values::index_key_size(key.len() as u16);
    let z = frames::frame_len((8 + k + 8) as u32) - (BoxHeader::HDR_LEN + (8 + k + 8));
    put_head(a, at, m, BoxHeader::INDEX, k, 8);
    let p = at + Delta::KEY_AT;
    let w = values::write_index_key(a, p, key);
    let q = p + k;
    numbers::put_u64(a, q, page.0);
    let e = q + 8;
    spans::zeros(a, e, z);
}

// ---- the two calls

// A leaf delta: a key with its version and a value, written from the next free address on.
pub fn from_key_val(
    a: &mut [u8],
    next: usize,
    limit: usize,
    group: u8,
    lsn: u64,
    ckpt: u64,
    ver: Ver,
    key: &[u8],
    value: &[u8],
) -> Result<(Addr, usize), Refusal>
    ensures value { result ≡ leaf_built (call_of limit 0 group ver.txid lsn ckpt) (length a.old) next (length key.now) (length value.now) }
    ensures a_after { a.new ≡ leaf_arena (call_of limit 0 group ver.txid lsn ckpt) a.old next ver key.now value.now }
{
    if !build_image::limit_ok(limit) {
        return Err(Refusal::BadLimit);
    }
    if !build_image::next_ok(a.len(), next) {
        return Err(Refusal::BadArena);
    }
    if !lengths_ok(key.len(), value.len()) {
        return Err(Refusal::BadList);
    }
    let remote = build_image::remote_len(limit, value.len(), NULL_ADDR);
    let len = leaf_len(limit, key.len(), value.len());
    let at = placed(next, a.len(), remote, len);
    if at == 0 {
        return Err(Refusal::NoRoom);
    }
    let m = build_image::call_of(limit, 0, group, ver.txid, lsn, ckpt);
    put_remote(a, next, m, value);
    put_leaf(a, at, m, next, ver, key, value);
    Ok((Addr(at as u64), at + len))
}

// An index delta: a key and a page id, written from the next free address on.
pub fn from_key_index(
    a: &mut [u8],
    next: usize,
    txid: u64,
    group: u8,
    lsn: u64,
    ckpt: u64,
    key: &[u8],
    page: PageId,
) -> Result<(Addr, usize), Refusal>
    ensures value { result ≡ index_built (length a.old) next (length key.now) }
    ensures a_after { a.new ≡ index_arena (call_of 0 0 group txid lsn ckpt) a.old next key.now page }
{
    if !build_image::next_ok(a.len(), next) {
        return Err(Refusal::BadArena);
    }
    if !lengths_ok(key.len(), 0) {
        return Err(Refusal::BadList);
    }
    let len = index_len(key.len());
    let at = placed(next, a.len(), 0, len);
    if at == 0 {
        return Err(Refusal::NoRoom);
    }
    let m = build_image::call_of(0, 0, group, txid, lsn, ckpt);
    put_index(a, at, m, key, page);
    Ok((Addr(at as u64), at + len))
}

// ---- readers

// A leaf delta's key: its version, and where the key stands.
#[derive(Clone, Copy)]
pub struct LeafKey {
    pub ver: Ver,
    pub key: Place,
}

// The delta at an address whose node type is the wanted one.
fn delta_of(s: &[u8], a: Addr, node: u8) -> Option<Delta>
    ensures { result ≡ delta_is s.now a node }
{
    let d = frames::delta_at(s, a)?;
    if d.node_type == node {
        return Some(d);
    }
    None
}

// A delta's key, which fills its length: of a leaf (0) or an index delta (1).
fn key_in(s: &[u8], d: Delta, kind: u8) -> Option<KeyParts>
    requires { d.val_at ≤ length s.now }
    ensures { result ≡ key_in s.now d kind }
{
    let k = values::key_at(&s[..d.val_at], d.key_at, kind)?;
    if BaseHeader::MAX_KEY < k.rest_len {
        return None;
    }
    if k.rest_at + k.rest_len != d.val_at {
        return None;
    }
    Some(k)
}

// The key of the leaf delta at an address; `pages::part_at` lends it on.
pub fn key(s: &[u8], a: Addr) -> Result<LeafKey, Refusal>
    ensures { result ≡ leaf_key_at s.now a }
{
    let Some(d) = delta_of(s, a, BoxHeader::LEAF) else {
        return Err(Refusal::BadFrame);
    };
    let Some(k) = key_in(s, d, 0) else {
        return Err(Refusal::BadFrame);
    };
    Ok(LeafKey {
        ver: records::ver_at(s, k.ver_at),
        key: Place {
            at: k.rest_at,
            len: k.rest_len,
        },
    })
}

// The key of the index delta at an address.
pub fn index_key(s: &[u8], a: Addr) -> Result<Place, Refusal>
    ensures { result ≡ index_key_at s.now a }
{
    let Some(d) = delta_of(s, a, BoxHeader::INDEX) else {
        return Err(Refusal::BadFrame);
    };
    let Some(k) = key_in(s, d, 1) else {
        return Err(Refusal::BadFrame);
    };
    Ok(Place {
        at: k.rest_at,
        len: k.rest_len,
    })
}

// A value's place, if what was read ends where the delta ends.
fn value_to(at: usize, len: usize, next: usize, end: usize) -> Result<Place, Refusal>
    ensures { result ≡ value_to at len next end }
{
    if next == end {
        return Ok(Place { at, len });
    }
    Err(Refusal::BadFrame)
}

// A leaf delta's value, which fills its length, and its remote frame judged with it.
fn val_in(s: &[u8], d: Delta) -> Result<Place, Refusal>
    requires { d.end ≤ length s.now }
    ensures { result ≡ val_in s.now d }
{
    let Some(v) = Val::decode_from(&s[..d.end], d.val_at, false) else {
        return Err(Refusal::BadFrame);
    };
    match v {
        Val::Inline {
            hist: _,
            at,
            size,
            next,
        } => value_to(at, size, next, d.end),
        Val::Remote {
            hist: _,
            addr,
            size,
            next,
        } => {
            let Some(p) = frames::remote_at(s, addr, size as u32) else {
                return Err(Refusal::BadFrame);
            };
            value_to(p, size, next, d.end)
        }
    }
}

// The value of the leaf delta at an address; `pages::part_at` lends it on.
pub fn val(s: &[u8], a: Addr) -> Result<Place, Refusal>
    ensures { result ≡ value_at s.now a }
{
    let Some(d) = delta_of(s, a, BoxHeader::LEAF) else {
        return Err(Refusal::BadFrame);
    };
    val_in(s, d)
}

// The page id of the index delta at an address.
pub fn index(s: &[u8], a: Addr) -> Result<PageId, Refusal>
    ensures { result ≡ child_at s.now a }
{
    let Some(d) = delta_of(s, a, BoxHeader::INDEX) else {
        return Err(Refusal::BadFrame);
    };
    if d.end == d.val_at + 8 {
        return Ok(PageId(numbers::read_u64(s, d.val_at)));
    }
    Err(Refusal::BadFrame)
}
