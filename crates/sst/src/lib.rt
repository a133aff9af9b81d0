// The three searches of sst.rs: lower bound, floor and search. Each is one halving of a page's slots over a comparison that may refuse.
#![tactic(auto)]

ghost use Rattle.std.specs.Prelude.{◌≡◌, ◌+◌, ◌-◌, ◌≤◌, ◌<◌, ◌^◌, length};
ghost use Rattle.frames.specs.Layout.{Inside};
ghost use Rattle.values.specs.Keys.{skip_of};
ghost use Rattle.sst.specs.Halve.{halve};
ghost use Rattle.sst.specs.Narrow.{Marks, MarkedAt, equal_at, IsMet, Narrowed};
ghost use Rattle.sst.specs.Search.{newer_at, key_cmp, fits_prefix, halved, elsewhere, ended_in, outcome_at, bound_in, floor_slot, page_in, floor_in, head_in, found_in, search_at, floor_at, lower_at};

use frames::{Addr, BaseHeader, Body, PageId, Refusal};
use order::Ver;
use pages::Place;
use records::ValParts;
use std::cmp::Ordering;
use values::{HistRef, KeyParts};

// Where a probe stands among a page's keys, with the number of keys read: at an equal key, or where the smaller keys end.
#[derive(Clone, Copy)]
pub enum Halved {
    At(usize, usize),
    End(usize, usize),
}

// The kinds of page that a search takes, and what it looks for beside the key: in a lower bound, the version.
#[derive(Clone, Copy)]
pub struct Want {
    pub leaf: bool,
    pub index: bool,
    pub lower: bool,
    pub ver: Ver,
}

// Where the search of an opened page ends; None is another kind of page. Empty is an answer: an Option of an Option would say it less plainly.
#[derive(Clone, Copy)]
pub enum Ended {
    Stands(Option<Halved>),
    Empty,
}

// The same of the page at an address; None is no page, too.
#[derive(Clone, Copy)]
pub enum Outcome {
    Stands(Body, Option<Halved>),
    Empty,
}

// The first position not less, with the number of keys read.
#[derive(Clone, Copy)]
pub enum Bound {
    At { pos: usize, reads: usize },
    PastEnd { pos: usize, reads: usize },
}

// The slot of the greatest key not above, its page, and the number of keys read.
#[derive(Clone, Copy)]
pub enum Floor {
    Is {
        slot: usize,
        page: PageId,
        reads: usize,
    },
    Nothing {
        reads: usize,
    },
}

// The slot of the key, its version, its history's reference, the place of its value in the arena, and the number of keys read.
#[derive(Clone, Copy)]
pub enum Found {
    Is {
        slot: usize,
        ver: Ver,
        hist: HistRef,
        value: Place,
        reads: usize,
    },
    Nothing {
        reads: usize,
    },
}

// ---- the comparison

// Whether the version at a place is newer than v; an index key has none.
fn newer_at(s: &[u8], kind: u8, at: usize, v: Ver) -> bool
    requires { at + skip_of kind ≤ length s.now }
    ensures { result ≡ newer_at s.now kind at v }
{
    if kind == Body::INDEX {
        return false;
    }
    records::ver_at(s, at).newer(v)
}

// ---- the halving

// Where a halving stands: the slots that are left, the keys read, and the record whose key is the probe, where it stopped at one.
#[derive(Clone, Copy)]
pub struct Stand {
    pub lo: usize,
    pub hi: usize,
    pub reads: usize,
    pub met: Option<usize>,
}

// The byte before a key rest of n bytes, where one byte says the length and the key is not too long; elsewhere 256, which no byte is.
fn mark_of(b: Body, n: usize) -> usize
    requires { b.prefix_len + n < 2 ^ 64 }
    ensures { Marks b n result }
{
    if b.kind == Body::HISTORY {
        return 256;
    }
    if BaseHeader::MAX_KEY < b.prefix_len + n {
        return 256;
    }
    let m = values::skip_of(b.kind) + n;
    if 127 < m {
        return 256;
    }
    m
}

// Where the record of slot i starts, if the byte there is the mark. A second text of `records::slot_at`, for speed: `marked_lies` (proofs/Narrows.antt)
// proves that the key there is the one that the decoder reads.
fn marked_at(s: &[u8], b: Body, i: usize, mark: usize) -> Option<usize>
    requires inside { Inside s.now b }
    requires i_lt_elems { (i < b.elems) × (mark ≤ 256) }
    ensures { MarkedAt s.now b i mark result }
{
    let p = b.at + (numbers::read_u32(s, b.at + BaseHeader::HDR_LEN + 4 * i) as usize);
    if p < b.first {
        return None;
    }
    if b.end <= p + mark {
        return None;
    }
    if (s[p] as usize) != mark {
        return None;
    }
    Some(p)
}

// Turns over keys as long as the probe, in a loop of their own: up to the first key of another length, or one that is the probe.
// Less or greater is asked last and of one value, so that it need be no branch: nobody could foresee it.
fn narrow(s: &[u8], b: Body, rest: &[u8], mark: usize, from: Stand) -> Stand
    requires inside { Inside s.now b }
    requires marks { Marks b (length rest.now) mark }
    requires hi_le_elems { (from.hi ≤ b.elems) × (from.hi - from.lo + from.reads ≤ b.elems) }
    ensures { Narrowed s.now b rest.now from result }
{
    let n = rest.len();
    let skip = values::skip_of(b.kind);
    let mut lo = from.lo;
    let mut hi = from.hi;
    let mut reads = from.reads;
    // A halving: no range to walk.
    while lo < hi {
        let mid = lo + (hi - lo) / 2;
        let Some(p) = marked_at(s, b, mid, mark) else {
            return Stand {
                lo,
                hi,
                reads,
                met: None,
            };
        };
        let q = p + 1 + skip;
        let e = q + n;
        let d = order_pair::pair_of(&s[q..e], rest);
        if d.x == d.y {
            if d.whole {
                return Stand {
                    lo,
                    hi,
                    reads,
                    met: Some(p),
                };
            }
            return Stand {
                lo,
                hi,
                reads,
                met: None,
            };
        }
        reads += 1;
        if d.x < d.y {
            lo = mid + 1;
        } else {
            hi = mid;
        }
    }
    Stand {
        lo,
        hi,
        reads,
        met: None,
    }
}

// A key that is the probe, its version at a place: a lower bound asks for the version, too.
fn equal_at(s: &[u8], kind: u8, at: usize, w: Want) -> Option<Ordering>
    requires { at + skip_of kind ≤ length s.now }
    ensures { result ≡ equal_at s.now kind at w }
{
    if w.lower {
        if newer_at(s, kind, at, w.ver) {
            return Some(Ordering::Less);
        }
        return Some(Ordering::Greater);
    }
    Some(Ordering::Equal)
}

// The key of slot i, of any length.
fn any_at(s: &[u8], b: Body, i: usize, rest: &[u8], w: Want) -> Option<Ordering>
    requires { Inside s.now b }
    ensures { result ≡ key_cmp s.now b rest.now w i }
{
    let k = records::key_at(s, b, i)?;
    let e = k.rest_at + k.rest_len;
    match order::compare(&s[k.rest_at..e], rest) {
        Ordering::Less => Some(Ordering::Less),
        Ordering::Equal => equal_at(s, b.kind, k.ver_at, w),
        Ordering::Greater => Some(Ordering::Greater),
    }
}

// The key of slot i, where the turns above stopped.
fn met_at(s: &[u8], b: Body, i: usize, rest: &[u8], w: Want, met: Option<usize>) -> Option<Ordering>
    requires inside { Inside s.now b }
    requires met { IsMet s.now b rest.now i met }
    ensures { result ≡ key_cmp s.now b rest.now w i }
{
    match met {
        Some(p) => equal_at(s, b.kind, p + 1, w),
        None => any_at(s, b, i, rest, w),
    }
}

// A page's slots, halved.
fn halve_keys(s: &[u8], b: Body, rest: &[u8], w: Want) -> Option<Halved>
    requires { Inside s.now b }
    ensures { result ≡ halve (key_cmp s.now b rest.now w) b.elems 0 b.elems 0 }
{
    let mark = mark_of(b, rest.len());
    let mut lo = 0;
    let mut hi = b.elems;
    let mut reads = 0;
    // A halving: no range to walk.
    while lo < hi {
        let g = narrow(
            s,
            b,
            rest,
            mark,
            Stand {
                lo,
                hi,
                reads,
                met: None,
            },
        );
        lo = g.lo;
        hi = g.hi;
        reads = g.reads;
        if lo < hi {
            let mid = lo + (hi - lo) / 2;
            reads += 1;
            let order = met_at(s, b, mid, rest, w, g.met)?;
            match order {
                Ordering::Less => {
                    lo = mid + 1;
                }
                Ordering::Greater => {
                    hi = mid;
                }
                Ordering::Equal => {
                    return Some(Halved::At(mid, reads));
                }
            }
        }
    }
    Some(Halved::End(lo, reads))
}

// Whether a probe begins with the page's prefix.
fn fits_prefix(s: &[u8], b: Body, probe: &[u8]) -> bool
    requires { Inside s.now b }
    ensures { result ≡ fits_prefix s.now b probe.now }
{
    if b.prefix_len == 0 {
        return true;
    }
    order::starts_with(records::prefix_of(s, b), probe)
}

// A page's slots, halved for a probe that begins with its prefix.
fn halve_page(s: &[u8], b: Body, probe: &[u8], w: Want) -> Option<Halved>
    requires inside { Inside s.now b }
    requires prefix_len_in_bounds { b.prefix_len ≤ length probe.now }
    ensures { result ≡ halved s.now b probe.now w }
{
    halve_keys(s, b, &probe[b.prefix_len..], w)
}

// Where a probe stands that does not begin with the page's prefix, as every key does: before the first or behind the last. No key is read.
fn elsewhere_in(s: &[u8], b: Body, probe: &[u8]) -> Option<Halved>
    requires { Inside s.now b }
    ensures { result ≡ elsewhere s.now b probe.now }
{
    match order::compare(probe, records::prefix_of(s, b)) {
        Ordering::Less => Some(Halved::End(0, 0)),
        Ordering::Equal => Some(Halved::End(b.elems, 0)),
        Ordering::Greater => Some(Halved::End(b.elems, 0)),
    }
}

// A page that was opened, for a search: its kind, then an empty page, then the probe against the prefix, then the halving.
fn ended_in(s: &[u8], b: Body, probe: &[u8], w: Want) -> Option<Ended>
    requires { Inside s.now b }
    ensures { result ≡ ended_in s.now b probe.now w }
{
    if (w.leaf & (b.kind == Body::LEAF)) | (w.index & (b.kind == Body::INDEX)) {
        if b.elems == 0 {
            return Some(Ended::Empty);
        }
        if fits_prefix(s, b, probe) {
            return Some(Ended::Stands(halve_page(s, b, probe, w)));
        }
        return Some(Ended::Stands(elsewhere_in(s, b, probe)));
    }
    None
}

// The page at an address, and where the probe stands among its keys: what the overlay asks for.
pub fn halve_at(s: &[u8], a: Addr, probe: &[u8], w: Want) -> Option<Outcome>
    ensures { result ≡ outcome_at s.now a probe.now w }
{
    let b = frames::open_at(s, a)?;
    let ended = ended_in(s, b, probe, w)?;
    match ended {
        Ended::Empty => Some(Outcome::Empty),
        Ended::Stands(h) => Some(Outcome::Stands(b, h)),
    }
}

// ---- the three searches

fn bound_in(elems: usize, h: Option<Halved>) -> Result<Bound, Refusal>
    ensures { result ≡ bound_in elems h }
{
    let Some(h) = h else {
        return Err(Refusal::BadFrame);
    };
    match h {
        Halved::At(_, _) => Err(Refusal::BadFrame),
        Halved::End(p, n) => {
            if p < elems {
                Ok(Bound::At { pos: p, reads: n })
            } else {
                Ok(Bound::PastEnd { pos: p, reads: n })
            }
        }
    }
}

// The first position of a leaf or index page whose key and version are not less than the probe's; an index page has no versions.
pub fn lower_bound(s: &[u8], a: Addr, probe: &[u8], v: Ver) -> Result<Bound, Refusal>
    ensures { result ≡ lower_at s.now a probe.now v }
{
    let w = Want {
        leaf: true,
        index: true,
        lower: true,
        ver: v,
    };
    let Some(b) = frames::open_at(s, a) else {
        return Err(Refusal::BadFrame);
    };
    let Some(ended) = ended_in(s, b, probe, w) else {
        return Err(Refusal::BadFrame);
    };
    match ended {
        Ended::Empty => Ok(Bound::PastEnd { pos: 0, reads: 0 }),
        Ended::Stands(h) => bound_in(b.elems, h),
    }
}

fn floor_slot(p: usize) -> usize
    ensures { result ≡ floor_slot p }
{
    p.saturating_sub(1)
}

// The page id of slot i.
fn page_in(s: &[u8], b: Body, i: usize, reads: usize) -> Result<Floor, Refusal>
    requires inside { Inside s.now b }
    requires kind_value { b.kind ≡ 1 }
    ensures { result ≡ page_in s.now b i reads }
{
    let Some(k) = records::key_at(s, b, i) else {
        return Err(Refusal::BadFrame);
    };
    let q = k.rest_at + k.rest_len;
    if b.end < q + 8 {
        return Err(Refusal::BadFrame);
    }
    Ok(Floor::Is {
        slot: i,
        page: PageId(numbers::read_u64(s, q)),
        reads,
    })
}

fn floor_in(s: &[u8], b: Body, h: Option<Halved>) -> Result<Floor, Refusal>
    requires inside { Inside s.now b }
    requires kind_value { b.kind ≡ 1 }
    ensures { result ≡ floor_in s.now b h }
{
    let Some(h) = h else {
        return Err(Refusal::BadFrame);
    };
    match h {
        Halved::At(i, n) => page_in(s, b, i, n),
        Halved::End(p, n) => page_in(s, b, floor_slot(p), n),
    }
}

// The greatest key of an index page that is not above the probe, slot 0 below the first, and its page.
pub fn floor_pid_by_raw(s: &[u8], a: Addr, probe: &[u8]) -> Result<Floor, Refusal>
    ensures { result ≡ floor_at s.now a probe.now }
{
    let w = Want {
        leaf: false,
        index: true,
        lower: false,
        ver: Ver::new(0, 0),
    };
    let Some(b) = frames::open_at(s, a) else {
        return Err(Refusal::BadFrame);
    };
    let Some(ended) = ended_in(s, b, probe, w) else {
        return Err(Refusal::BadFrame);
    };
    match ended {
        Ended::Empty => Ok(Floor::Nothing { reads: 0 }),
        Ended::Stands(h) => floor_in(s, b, h),
    }
}

// The head of slot i, by the decoder of any record.
fn any_head(s: &[u8], b: Body, i: usize, reads: usize) -> Result<Found, Refusal>
    requires inside { Inside s.now b }
    requires kind_value { b.kind ≡ 0 }
    ensures { result ≡ head_in s.now b i reads }
{
    let Some(r) = records::rec_at(s, b, i) else {
        return Err(Refusal::BadFrame);
    };
    Ok(Found::Is {
        slot: i,
        ver: records::ver_at(s, r.ver_at),
        hist: r.hist,
        value: Place {
            at: r.val_at,
            len: r.val_len,
        },
        reads,
    })
}

// The head of slot i: a value that stands in its page is read in place.
fn head_in(s: &[u8], b: Body, i: usize, reads: usize) -> Result<Found, Refusal>
    requires inside { Inside s.now b }
    requires kind_value { b.kind ≡ 0 }
    ensures { result ≡ head_in s.now b i reads }
{
    let Some(k) = records::key_at(s, b, i) else {
        return Err(Refusal::BadFrame);
    };
    let Some(val) = records::quick_value(s, b, k.rest_at + k.rest_len) else {
        return any_head(s, b, i, reads);
    };
    Ok(Found::Is {
        slot: i,
        ver: records::ver_at(s, k.ver_at),
        hist: val.hist,
        value: Place {
            at: val.val_at,
            len: val.val_len,
        },
        reads,
    })
}

fn found_in(s: &[u8], b: Body, h: Option<Halved>) -> Result<Found, Refusal>
    requires inside { Inside s.now b }
    requires kind_value { b.kind ≡ 0 }
    ensures { result ≡ found_in s.now b h }
{
    let Some(h) = h else {
        return Err(Refusal::BadFrame);
    };
    match h {
        Halved::At(i, n) => head_in(s, b, i, n),
        Halved::End(_, n) => Ok(Found::Nothing { reads: n }),
    }
}

// A leaf's head with the probe as its key. Its value is lent on by `pages::part_at`; its history is not followed.
pub fn search_ver_val_by_raw(s: &[u8], a: Addr, probe: &[u8]) -> Result<Found, Refusal>
    ensures { result ≡ search_at s.now a probe.now }
{
    let w = Want {
        leaf: true,
        index: false,
        lower: false,
        ver: Ver::new(0, 0),
    };
    let Some(b) = frames::open_at(s, a) else {
        return Err(Refusal::BadFrame);
    };
    let Some(ended) = ended_in(s, b, probe, w) else {
        return Err(Refusal::BadFrame);
    };
    match ended {
        Ended::Empty => Ok(Found::Nothing { reads: 0 }),
        Ended::Stands(h) => found_in(s, b, h),
    }
}
