// A sound page's rows as entries: the heads of a leaf one by one, each with its old versions behind it. The history page is in hand, so that it is opened
// once as long as heads name pages in order.
#![tactic(auto)]

ghost use Rattle.std.specs.Prelude.{◌≡◌, true, ◌+◌, ◌<◌};
ghost use Rattle.build_rows.specs.Fields.{hist_at, behind_of, HistFits, bytes_at, BytesFit, Readable, KeyAt};
ghost use Rattle.build_rows.specs.Judged.{Judged, HeadAt, PastAt, ChildAt};
ghost use Rattle.build_rows.specs.Hand.{Holds, Known, Opens, Answers, SpotAt, OldAt};

use frames::{Addr, BaseHeader, Body, NULL_ADDR, PageId};
use values::HistRef;

// A history page in hand: its address, where it stands, its slots and its link; none where the address is 0.
#[derive(Clone, Copy)]
pub struct Hand {
    pub page: Addr,
    pub at: usize,
    pub elems: usize,
    pub link: Addr,
}

// An old version's place.
#[derive(Clone, Copy)]
pub struct Spot {
    pub hand: Hand,
    pub slot: usize,
}

pub fn no_hand() -> Hand
    ensures { result.page.0 ≡ 0 }
{
    Hand {
        page: NULL_ADDR,
        at: 0,
        elems: 0,
        link: NULL_ADDR,
    }
}

// The history page at an address; the one in hand is not opened again.
pub fn hand_at(s: &[u8], a: Addr, hand: Hand) -> Hand
    requires known { Known s.now hand }
    requires opens { Opens s.now a }
    ensures holds { Holds s.now result }
    ensures page_value { result.page ≡ a }
{
    if a.0 == hand.page.0 {
        return hand;
    }
    let Some(b) = pages::history_at(s, a) else {
        return hand;
    };
    Hand {
        page: a,
        at: b.at,
        elems: b.elems,
        link: b.link,
    }
}

// Where the old version at a slot stands: behind the page's last slot it is the first of the page that it links to.
pub fn spot_at(s: &[u8], hand: Hand, slot: usize) -> Spot
    requires holds { Holds s.now hand }
    requires answers { Answers s.now hand.page slot }
    ensures { SpotAt s.now hand.page slot result }
{
    if slot < hand.elems {
        return Spot { hand, slot };
    }
    Spot {
        hand: hand_at(s, hand.link, hand),
        slot: 0,
    }
}

// ---- records of sound pages

// A value's bytes: where they stand, how many, the address of its remote frame, or 0.
#[derive(Clone, Copy)]
pub struct Bytes {
    pub at: usize,
    pub len: usize,
    pub remote: Addr,
}

// Behind the flag and the history.
fn bytes_here(s: &[u8], far: bool, at: usize) -> Bytes
    requires { BytesFit s.now far at }
    ensures { result ≡ bytes_at s.now far at }
{
    let n = numbers::read_u32(s, at) as usize;
    if far {
        let a = numbers::read_u64(s, at + 4);
        return Bytes {
            at: a as usize + 40,
            len: n,
            remote: Addr(a),
        };
    }
    Bytes {
        at: at + 4,
        len: n,
        remote: NULL_ADDR,
    }
}

// An old version: where its version stands, and its value.
#[derive(Clone, Copy)]
pub struct Old {
    pub ver_at: usize,
    pub bytes: Bytes,
}

pub fn old_here(s: &[u8], hand: Hand, i: usize) -> Old
    requires holds { Holds s.now hand }
    requires i_lt_elems { i < hand.elems }
    requires answers { Answers s.now hand.page i }
    ensures { OldAt s.now hand.page i result }
{
    let p = hand.at + (numbers::read_u32(s, hand.at + BaseHeader::HDR_LEN + 4 * i) as usize);
    let f = s[p + 12];
    Old {
        ver_at: p,
        bytes: bytes_here(s, f != 0, p + 13),
    }
}

// A head: where its version and its rest of the key stand, its old versions, its value.
#[derive(Clone, Copy)]
pub struct Head {
    pub ver_at: usize,
    pub rest_len: usize,
    pub hist: HistRef,
    pub bytes: Bytes,
}

fn hist_here(s: &[u8], has: bool, at: usize) -> HistRef
    requires { HistFits s.now has at }
    ensures { result ≡ hist_at s.now has at }
{
    if has {
        return HistRef {
            page: Addr(numbers::read_u64(s, at)),
            slot: numbers::read_u16(s, at + 8),
            count: numbers::read_u32(s, at + 10),
        };
    }
    HistRef::NONE
}

fn behind(has: bool, at: usize) -> usize
    requires { has ≡ true → at + 14 < 18446744073709551616 }
    ensures { result ≡ behind_of has at }
{
    if has {
        return at + 14;
    }
    at
}

// Where a key begins, behind its length, and how long it is: a head's with its version.
#[derive(Clone, Copy)]
pub struct KeyHere {
    pub at: usize,
    pub len: usize,
}

fn key_here(s: &[u8], b: Body, i: usize) -> KeyHere
    requires { Readable s.now b i }
    ensures { KeyAt s.now b i result }
{
    let p = b.at + (numbers::read_u32(s, b.at + BaseHeader::HDR_LEN + 4 * i) as usize);
    let n = s[p] as usize;
    if n < 128 {
        return KeyHere { at: p + 1, len: n };
    }
    let Some(r) = records::rec_at(s, b, i) else {
        return KeyHere { at: p + 1, len: n };
    };
    KeyHere {
        at: r.ver_at,
        len: r.rest_at - r.ver_at + r.rest_len,
    }
}

pub fn head_here(s: &[u8], b: Body, i: usize) -> Head
    requires judged { Judged s.now b 0 }
    requires i_lt_elems { i < b.elems }
    ensures { HeadAt s.now b i result }
{
    let k = key_here(s, b, i);
    let at = k.at + k.len;
    let f = s[at];
    let has = f % 2 == 1;
    Head {
        ver_at: k.at,
        rest_len: k.len - 12,
        hist: hist_here(s, has, at + 1),
        bytes: bytes_here(s, 1 < f, behind(has, at + 1)),
    }
}

// The history of a head alone.
pub fn past_here(s: &[u8], b: Body, i: usize) -> HistRef
    requires judged { Judged s.now b 0 }
    requires i_lt_elems { i < b.elems }
    ensures { PastAt s.now b i result }
{
    let k = key_here(s, b, i);
    let at = k.at + k.len;
    let f = s[at];
    hist_here(s, f % 2 == 1, at + 1)
}

// ---- index pages

// A child of an index page: where the rest of its key stands, and the page that it leads to.
#[derive(Clone, Copy)]
pub struct Child {
    pub rest_at: usize,
    pub rest_len: usize,
    pub page: PageId,
}

pub fn child_here(s: &[u8], b: Body, i: usize) -> Child
    requires judged { Judged s.now b 1 }
    requires i_lt_elems { i < b.elems }
    ensures { ChildAt s.now b i result }
{
    let k = key_here(s, b, i);
    Child {
        rest_at: k.at,
        rest_len: k.len,
        page: PageId(numbers::read_u64(s, k.at + k.len)),
    }
}
