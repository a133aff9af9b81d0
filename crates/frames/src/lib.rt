// Frames: addresses and page ids, the two headers read and written, the frame of each kind cut into its places, and the clerk.
// Headers are judged once a call, into one body by value; everything after works on places inside it.
#![tactic(auto)]

ghost use Rattle.std.specs.Prelude.{◌≡◌, true, ◌+◌, ◌*◌, ◌≤◌, ◌<◌, ◌^◌, length, Some};
ghost use Rattle.spans.specs.Span.{put};
ghost use Rattle.frames.specs.Refusals.{number_of};
ghost use Rattle.frames.specs.declared.Body.{Body};
ghost use Rattle.frames.specs.Layout.{box_len, base_len, slots_at, flag_sibling, frame_len, box_fields, box_ok, box_at, base_fields, base_ok, AnyBase, Passes, page_at, kind_of, body_of, open_at, remote_at, delta_at};
ghost use Rattle.frames.specs.Stored.{box_bytes, base_of, base_front, base_back, base_bytes, page_bytes};
ghost use Rattle.frames.specs.Clerks.{taken_of};

// Why a call refuses: document 01's table, in the order in which a call judges.
#[derive(Clone, Copy)]
pub enum Refusal {
    BadLimit,
    BadArena,
    BadList,
    BadFrame,
    MixedKinds,
    OutOfOrder,
    WrongPrefix,
    Outside,
    TooBig,
    NoRoom,
}

// Its number, which the C interface answers.
pub fn number(r: Refusal) -> u8
    ensures { result ≡ number_of r }
{
    match r {
        Refusal::BadLimit => 1,
        Refusal::BadArena => 2,
        Refusal::BadList => 3,
        Refusal::BadFrame => 4,
        Refusal::MixedKinds => 5,
        Refusal::OutOfOrder => 6,
        Refusal::WrongPrefix => 7,
        Refusal::Outside => 10,
        Refusal::TooBig => 8,
        Refusal::NoRoom => 9,
    }
}

// A frame's offset in the arena; 0 is none.
#[derive(Clone, Copy)]
pub struct Addr(pub u64);

// A node's name, which outlives its frames; 0 is none.
#[derive(Clone, Copy)]
pub struct PageId(pub u64);

pub const NULL_ADDR: Addr = Addr(0);

pub const NULL_PID: PageId = PageId(0);

#[derive(Clone, Copy)]
pub struct BoxHeader {
    pub payload_size: u32,
    pub box_kind: u8,
    pub node_type: u8,
    pub flag: u8,
    pub group: u8,
    pub link: Addr,
    pub txid: u64,
    pub lsn: u64,
}

#[derive(Clone, Copy)]
pub struct BaseHeader {
    pub size: u32,
    pub elems: u16,
    pub split_elems: u16,
    pub right_sibling: PageId,
    pub merging_child: PageId,
    pub lo_len: u32,
    pub hi_len: u32,
    pub prefix_len: u32,
    pub merging: u8,
    pub is_index: u8,
    pub has_multiple_versions: u8,
    pub padding: u8,
}

// What a frame takes in the arena: box header and payload, rounded up to 8.
pub fn frame_len(payload: u32) -> usize
    ensures { result ≡ frame_len payload }
{
    (payload as usize + BoxHeader::HDR_LEN + 7) / 8 * 8
}

impl BoxHeader {
    pub const HDR_LEN: usize = 32;
    // kind
    pub const BASE: u8 = 1;

    pub const DELTA: u8 = 2;

    pub const REMOTE: u8 = 3;
    // node_type
    pub const LEAF: u8 = 1;

    pub const INDEX: u8 = 2;
    // flag
    pub const SIBLING: u8 = 1;

    fn fields(s: &[u8], at: usize) -> BoxHeader
        requires { at + box_len ≤ length s.now }
        ensures { result ≡ box_fields s.now at }
    {
        BoxHeader {
            payload_size: numbers::read_u32(s, at),
            box_kind: s[at + 4],
            node_type: s[at + 5],
            flag: s[at + 6],
            group: s[at + 7],
            link: Addr(numbers::read_u64(s, at + 8)),
            txid: numbers::read_u64(s, at + 16),
            lsn: numbers::read_u64(s, at + 24),
        }
    }

    // Whether the header is as laid out for a frame at this address of an arena of this length. `plain` asks the same of leaf and index pages, for speed.
    fn ok(self, at: usize, len: usize) -> bool
        requires { (at ≤ len) × (len < 2 ^ 63) }
        ensures { result ≡ box_ok self at len }
    {
        let address = (8 <= at) & (at % 8 == 0);
        let kinds = (BoxHeader::BASE <= self.box_kind)
            & (self.box_kind <= BoxHeader::REMOTE)
            & (BoxHeader::LEAF <= self.node_type)
            & (self.node_type <= BoxHeader::INDEX);
        let history = (self.box_kind == BoxHeader::BASE)
            & (self.node_type == BoxHeader::LEAF)
            & (self.flag == BoxHeader::SIBLING);
        let flag = (self.flag == 0) | history;
        let link = (self.link.0 == 0) | (history & ((at as u64) < self.link.0));
        let remote = (self.box_kind != BoxHeader::REMOTE)
            | ((self.txid == 0) & (self.node_type == BoxHeader::LEAF));
        address & kinds & flag & link & remote & (at + frame_len(self.payload_size) <= len)
    }

    // The box header of the frame at an address.
    pub fn at(s: &[u8], a: Addr) -> Option<BoxHeader>
        ensures { result ≡ box_at s.now a }
    {
        let at = a.0 as usize;
        if spans::room(s.len(), at, BoxHeader::HDR_LEN) {
            let h = BoxHeader::fields(s, at);
            if h.ok(at, s.len()) {
                return Some(h);
            }
        }
        None
    }
}

impl BaseHeader {
    pub const HDR_LEN: usize = 40;
    // Where a page's slots stand in its frame: behind both headers.
    pub const SLOTS_AT: usize = BoxHeader::HDR_LEN + BaseHeader::HDR_LEN;
    // The budget of a history page that a caller without an opinion passes; and the Rust's, for whoever wants its pages.
    pub const HIST_PAGE_BUDGET: usize = 32768;

    pub const RUST_HIST_PAGE_BUDGET: usize = 131072;
    // Document 01's table of refusals: a key or boundary, a value, the inline limit, the budget, entries, size with hint room.
    pub const MAX_KEY: usize = 4096;

    pub const MAX_VALUE: usize = 65536;

    pub const MAX_LIMIT: usize = 65536;

    pub const MIN_BUDGET: usize = 256;

    pub const MAX_BUDGET: usize = 131072;

    pub const MAX_ENTRIES: usize = 65535;

    pub const MAX_SIZE: usize = 16777216;

    // The one maker of a header: what document 01 says is 0 stands here alone.
    pub fn new(
        size: u32,
        elems: u16,
        sibling: PageId,
        lo: u32,
        hi: u32,
        prefix: u32,
        index: u8,
        many: u8,
    ) -> BaseHeader
        ensures { result ≡ base_of size elems sibling.0 lo hi prefix index many }
    {
        BaseHeader {
            size,
            elems,
            split_elems: 0,
            right_sibling: sibling,
            merging_child: NULL_PID,
            lo_len: lo,
            hi_len: hi,
            prefix_len: prefix,
            merging: 0,
            is_index: index,
            has_multiple_versions: many,
            padding: 0,
        }
    }

    fn fields(s: &[u8], at: usize) -> BaseHeader
        requires { at + base_len ≤ length s.now }
        ensures { result ≡ base_fields s.now at }
    {
        BaseHeader {
            size: numbers::read_u32(s, at),
            elems: numbers::read_u16(s, at + 4),
            split_elems: numbers::read_u16(s, at + 6),
            right_sibling: PageId(numbers::read_u64(s, at + 8)),
            merging_child: PageId(numbers::read_u64(s, at + 16)),
            lo_len: numbers::read_u32(s, at + 24),
            hi_len: numbers::read_u32(s, at + 28),
            prefix_len: numbers::read_u32(s, at + 32),
            merging: s[at + 36],
            is_index: s[at + 37],
            has_multiple_versions: s[at + 38],
            padding: s[at + 39],
        }
    }

    // What header, slots and boundaries take.
    fn front(self) -> u64
        ensures { result ≡ base_len + 4 * self.elems + self.lo_len + self.hi_len }
    {
        BaseHeader::HDR_LEN as u64
            + 4 * (self.elems as u64)
            + (self.lo_len as u64)
            + (self.hi_len as u64)
    }

    // Whether the header is as laid out in the payload of a base frame with the header h. `plain` asks the same of leaf and index pages, for speed.
    fn ok(self, h: BoxHeader) -> bool
        ensures { result ≡ base_ok h self }
    {
        let zeros = (self.split_elems == 0)
            & (self.merging_child.0 == 0)
            & (self.merging == 0)
            & (self.padding == 0);
        let leaf = (self.is_index == 0) & (h.node_type == BoxHeader::LEAF);
        let index = (self.is_index == 1) & (h.node_type == BoxHeader::INDEX);
        let many = (self.has_multiple_versions == 0)
            | ((self.has_multiple_versions == 1) & leaf & (h.flag == 0));
        let bounds = (self.lo_len == 0) & (self.hi_len == 0) & (self.right_sibling.0 == 0);
        let history = (h.flag == 0) | ((1 <= self.elems) & bounds);
        let hints = (leaf & (h.flag == 0)) | (self.size == h.payload_size);
        let lengths = (self.lo_len as usize <= BaseHeader::MAX_KEY)
            & (self.hi_len as usize <= BaseHeader::MAX_KEY);
        zeros
            & (leaf | index)
            & many
            & history
            & hints
            & lengths
            & (self.prefix_len <= self.lo_len)
            & (self.size <= h.payload_size)
            & (self.front() <= (self.size as u64))
    }

    // Both headers of the base page at an address.
    pub fn at(s: &[u8], a: Addr) -> Option<(BoxHeader, BaseHeader)>
        ensures { result ≡ page_at s.now a }
    {
        let h = BoxHeader::at(s, a)?;
        if h.box_kind != BoxHeader::BASE {
            return None;
        }
        if (h.payload_size as usize) < BaseHeader::HDR_LEN {
            return None;
        }
        let at = a.0 as usize;
        let b = BaseHeader::fields(s, at + BoxHeader::HDR_LEN);
        if b.ok(h) { Some((h, b)) } else { None }
    }
}

// Stores a box header, field by field, straight into the slice.
pub fn put_box(buf: &mut [u8], at: usize, h: BoxHeader)
    requires { at + box_len ≤ length buf.old }
    ensures { buf.new ≡ put buf.old at (box_bytes h) }
{
    numbers::put_u32(buf, at, h.payload_size);
    numbers::put_u8(buf, at + 4, h.box_kind);
    numbers::put_u8(buf, at + 5, h.node_type);
    numbers::put_u8(buf, at + 6, h.flag);
    numbers::put_u8(buf, at + 7, h.group);
    numbers::put_u64(buf, at + 8, h.link.0);
    numbers::put_u64(buf, at + 16, h.txid);
    numbers::put_u64(buf, at + 24, h.lsn);
}

// The first 24 bytes of a base header.
fn put_base_front(buf: &mut [u8], at: usize, h: BaseHeader)
    requires { at + 24 ≤ length buf.old }
    ensures { buf.new ≡ put buf.old at (base_front h) }
{
    numbers::put_u32(buf, at, h.size);
    numbers::put_u16(buf, at + 4, h.elems);
    numbers::put_u16(buf, at + 6, h.split_elems);
    numbers::put_u64(buf, at + 8, h.right_sibling.0);
    numbers::put_u64(buf, at + 16, h.merging_child.0);
}

// The other 16.
fn put_base_back(buf: &mut [u8], at: usize, h: BaseHeader)
    requires { at + 16 ≤ length buf.old }
    ensures { buf.new ≡ put buf.old at (base_back h) }
{
    numbers::put_u32(buf, at, h.lo_len);
    numbers::put_u32(buf, at + 4, h.hi_len);
    numbers::put_u32(buf, at + 8, h.prefix_len);
    numbers::put_u8(buf, at + 12, h.merging);
    numbers::put_u8(buf, at + 13, h.is_index);
    numbers::put_u8(buf, at + 14, h.has_multiple_versions);
    numbers::put_u8(buf, at + 15, h.padding);
}

// Stores a base header.
fn put_base(buf: &mut [u8], at: usize, h: BaseHeader)
    requires { at + base_len ≤ length buf.old }
    ensures { buf.new ≡ put buf.old at (base_bytes h) }
{
    put_base_front(buf, at, h);
    put_base_back(buf, at + 24, h);
}

// Stores both headers of a page: the one writer of them.
pub fn put_page(buf: &mut [u8], at: usize, x: BoxHeader, h: BaseHeader)
    requires { at + slots_at ≤ length buf.old }
    ensures { buf.new ≡ put buf.old at (page_bytes x h) }
{
    put_box(buf, at, x);
    put_base(buf, at + BoxHeader::HDR_LEN, h);
}

// Where a page stands in the arena: its base header, its end, its payload's end, where its records begin; and what its headers say.
#[derive(Clone, Copy)]
pub struct Body {
    pub at: usize,
    pub end: usize,
    pub tail: usize,
    pub elems: usize,
    pub first: usize,
    pub kind: u8,
    pub prefix_len: usize,
    pub lo_len: usize,
    pub hi_len: usize,
    pub sibling: PageId,
    pub multi: u8,
    pub link: Addr,
}

impl Body {
    pub const LEAF: u8 = 0;

    pub const INDEX: u8 = 1;

    pub const HISTORY: u8 = 2;
}

fn kind_of(flag: u8, is_index: u8) -> u8
    ensures { result ≡ kind_of flag is_index }
{
    if flag == BoxHeader::SIBLING {
        return Body::HISTORY;
    }
    if is_index == 1 {
        return Body::INDEX;
    }
    Body::LEAF
}

fn body_of(a: Addr, x: BoxHeader, h: BaseHeader) -> Body
    requires payload_size_bound { a.0 + box_len + x.payload_size < 2 ^ 63 }
    requires size_bound { h.size ≤ x.payload_size }
    requires hi_len_bound { base_len + 4 * h.elems + h.lo_len + h.hi_len ≤ h.size }
    ensures { result ≡ body_of a x h }
{
    let at = (a.0 as usize) + BoxHeader::HDR_LEN;
    Body {
        at,
        end: at + (h.size as usize),
        tail: at + (x.payload_size as usize),
        elems: h.elems as usize,
        first: at
            + BaseHeader::HDR_LEN
            + 4 * (h.elems as usize)
            + (h.lo_len as usize)
            + (h.hi_len as usize),
        kind: kind_of(x.flag, h.is_index),
        prefix_len: h.prefix_len as usize,
        lo_len: h.lo_len as usize,
        hi_len: h.hi_len as usize,
        sibling: h.right_sibling,
        multi: h.has_multiple_versions,
        link: x.link,
    }
}

// What the headers of every base page must say, whatever its kind.
fn any_base(x: BoxHeader, h: BaseHeader, at: usize, len: usize) -> bool
    requires { (at ≤ len) × (len < 2 ^ 63) }
    ensures { result ≡ true → AnyBase x h at len }
{
    let address = (8 <= at) & (at % 8 == 0);
    let zeros = (h.split_elems == 0)
        & (h.merging_child.0 == 0)
        & (h.merging == 0)
        & (h.padding == 0);
    address
        & (x.box_kind == BoxHeader::BASE)
        & zeros
        & (h.front() <= (h.size as u64))
        & (at + frame_len(x.payload_size) <= len)
}

// Whether both headers are those of a leaf or an index page: in fewer tests than `ok` of both, since flag and link are 0 there. A second text, for
// speed: `plain_ok` (proofs/Judged.antt) proves that its yes is that of both.
fn plain(x: BoxHeader, h: BaseHeader, at: usize, len: usize) -> bool
    requires { (at ≤ len) × (len < 2 ^ 63) }
    ensures { result ≡ true → Passes x h at len }
{
    let base = (x.flag == 0) & (x.link.0 == 0);
    let many = (h.has_multiple_versions == 0) | (h.has_multiple_versions == 1);
    let leaf = (h.is_index == 0) & (x.node_type == BoxHeader::LEAF) & many;
    let single = (h.has_multiple_versions == 0) & (h.size == x.payload_size);
    let index = (h.is_index == 1) & (x.node_type == BoxHeader::INDEX) & single;
    let lengths = (h.lo_len as usize <= BaseHeader::MAX_KEY)
        & (h.hi_len as usize <= BaseHeader::MAX_KEY);
    any_base(x, h, at, len)
        & base
        & (leaf | index)
        & lengths
        & (h.prefix_len <= h.lo_len)
        & (h.size <= x.payload_size)
}

// Whether both headers are those of a history page, likewise: `history_ok_lem` (proofs/Judged.antt).
fn history(x: BoxHeader, h: BaseHeader, at: usize, len: usize) -> bool
    requires { (at ≤ len) × (len < 2 ^ 63) }
    ensures { result ≡ true → Passes x h at len × (x.flag ≡ flag_sibling) }
{
    let base = (x.node_type == BoxHeader::LEAF) & (x.flag == BoxHeader::SIBLING);
    let link = (x.link.0 == 0) | ((at as u64) < x.link.0);
    let bounds = (h.lo_len == 0) & (h.hi_len == 0) & (h.right_sibling.0 == 0);
    let single = (h.is_index == 0) & (h.has_multiple_versions == 0);
    any_base(x, h, at, len)
        & base
        & link
        & bounds
        & single
        & (h.prefix_len == 0)
        & (1 <= h.elems)
        & (h.size == x.payload_size)
}

// The history page at an address, judged quickly; None says nothing.
pub fn quick_history(s: &[u8], a: Addr) -> Option<Body>
    ensures { (b : Body) → result ≡ Some b → (open_at s.now a ≡ Some b) × (b.kind ≡ 2) }
{
    let at = a.0 as usize;
    if spans::room(s.len(), at, BaseHeader::SLOTS_AT) {
        let x = BoxHeader::fields(s, at);
        let h = BaseHeader::fields(s, at + BoxHeader::HDR_LEN);
        if history(x, h, at, s.len()) {
            return Some(body_of(a, x, h));
        }
    }
    None
}

// The base page at an address, by both headers' tests.
fn any_at(s: &[u8], a: Addr) -> Option<Body>
    ensures { result ≡ open_at s.now a }
{
    let Some((x, h)) = BaseHeader::at(s, a) else {
        return None;
    };
    Some(body_of(a, x, h))
}

// The base page at an address, of any kind: leaf and index pages are judged quickly.
pub fn open_at(s: &[u8], a: Addr) -> Option<Body>
    ensures { result ≡ open_at s.now a }
{
    let at = a.0 as usize;
    if spans::room(s.len(), at, BaseHeader::SLOTS_AT) {
        let x = BoxHeader::fields(s, at);
        let h = BaseHeader::fields(s, at + BoxHeader::HDR_LEN);
        if plain(x, h, at, s.len()) {
            return Some(body_of(a, x, h));
        }
    }
    any_at(s, a)
}

// The remote frame at an address that holds n bytes.
pub fn remote_at(s: &[u8], a: Addr, n: u32) -> Option<usize>
    ensures { result ≡ remote_at s.now a n }
{
    let h = BoxHeader::at(s, a)?;
    if h.box_kind != BoxHeader::REMOTE {
        return None;
    }
    if (h.payload_size as u64) != 8 + (n as u64) {
        return None;
    }
    let p = (a.0 as usize) + BoxHeader::HDR_LEN;
    if numbers::read_u64(s, p) != (n as u64) {
        return None;
    }
    Some(p + 8)
}

// Where a delta's key and value stand, and what its frame says of it.
#[derive(Clone, Copy)]
pub struct Delta {
    pub key_at: usize,
    pub val_at: usize,
    pub end: usize,
    pub node_type: u8,
    pub txid: u64,
}

impl Delta {
    // klen and vlen
    pub const LENS: usize = 8;
    // Where a delta's key stands in its frame.
    pub const KEY_AT: usize = BoxHeader::HDR_LEN + Delta::LENS;
}

// The delta frame at an address: its payload is cut by its two lengths and nothing is left.
pub fn delta_at(s: &[u8], a: Addr) -> Option<Delta>
    ensures { result ≡ delta_at s.now a }
{
    let h = BoxHeader::at(s, a)?;
    if h.box_kind != BoxHeader::DELTA {
        return None;
    }
    if (h.payload_size as usize) < Delta::LENS {
        return None;
    }
    let p = (a.0 as usize) + BoxHeader::HDR_LEN;
    let k = numbers::read_u32(s, p) as usize;
    let v = numbers::read_u32(s, p + 4) as usize;
    if (h.payload_size as usize) != Delta::LENS + k + v {
        return None;
    }
    Some(Delta {
        key_at: p + Delta::LENS,
        val_at: p + Delta::LENS + k,
        end: p + Delta::LENS + k + v,
        node_type: h.node_type,
        txid: h.txid,
    })
}

// The arena's clerk: the next free address, and how far the arena goes.
#[derive(Clone, Copy)]
pub struct Clerk {
    pub next: Addr,
    pub limit: u64,
}

// The address handed out, 0 where there is no room, and the clerk moved on.
#[derive(Clone, Copy)]
pub struct Taken {
    pub addr: Addr,
    pub clerk: Clerk,
}

impl Clerk {
    // Hands out size bytes. Total: without room the address is none and the clerk stays.
    pub fn take(self, size: u64) -> Taken
        ensures { result ≡ taken_of self size }
    {
        if self.next.0 <= self.limit {
            if size <= self.limit - self.next.0 {
                return Taken {
                    addr: self.next,
                    clerk: Clerk {
                        next: Addr(self.next.0 + size),
                        ..self
                    },
                };
            }
        }
        Taken {
            addr: NULL_ADDR,
            clerk: self,
        }
    }
}
