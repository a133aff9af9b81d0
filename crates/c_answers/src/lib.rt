// The answers of the C interface: each told in its words, and its number returned.
#![tactic(auto)]

ghost use Rattle.std.specs.Prelude.{◌≡◌};
ghost use Rattle.pages.specs.Refused.{bounds_number, hints_number};
ghost use Rattle.sst.specs.Refused.{found_number, floor_number, bound_number};
ghost use Rattle.asof.specs.Refused.{as_of_number};
ghost use Rattle.walks.specs.Refused.{begun_number};
ghost use Rattle.build_image.specs.Call as call;
ghost use Rattle.delta.specs.Refused as refused;
ghost use Rattle.overlay.specs.Overlay.{laid_number};
ghost use Rattle.c_words.specs.Words.{written};
ghost use Rattle.c_answers.specs.Answers.{built_words, bounds_words, hints_words, hint_words, found_words, as_of_words, bound_words, floor_words, begun_words, leaf_key_words, index_key_words, value_words, child_words, laid_words};

use asof::AsOf;
use delta::LeafKey;
use frames::{Addr, PageId, Refusal};
use overlay::Laid;
use pages::{Bounds, Hints, Place};
use sst::{Bound, Floor, Found};
use walks::Walk;

// ---- building

pub fn tell_built(out: &mut [u64], x: Result<(Addr, usize), Refusal>) -> u32
    ensures value { result ≡ call.built_number x }
    ensures out_after { out.new ≡ written (built_words x) out.old }
{
    match x {
        Ok((a, next)) => {
            c_words::store_two(out, 0, a.0, next as u64);
            0
        }
        Err(r) => c_words::no(r),
    }
}

// ---- reading a page

pub fn tell_page(out: &mut [u64], kind: u8, elems: usize, x: Result<Bounds, Refusal>) -> u32
    ensures value { result ≡ bounds_number x }
    ensures out_after { out.new ≡ written (bounds_words kind elems x) out.old }
{
    match x {
        Ok(b) => {
            c_words::store_three(out, 0, kind as u64, elems as u64, b.lo.at as u64);
            c_words::store_three(out, 3, b.lo.len as u64, b.hi.at as u64, b.hi.len as u64);
            c_words::store_three(out, 6, b.prefix.at as u64, b.prefix.len as u64, b.sibling.0);
            0
        }
        Err(r) => c_words::no(r),
    }
}

pub fn tell_hints(out: &mut [u64], x: Result<Option<Hints>, Refusal>) -> u32
    ensures value { result ≡ hints_number x }
    ensures out_after { out.new ≡ written (hints_words x) out.old }
{
    match x {
        Ok(x) => match x {
            Some(h) => {
                c_words::store_two(out, 0, h.at as u64, h.count as u64);
                0
            }
            None => {
                c_words::store_two(out, 0, 0, 0);
                0
            }
        },
        Err(r) => c_words::no(r),
    }
}

pub fn tell_hint(out: &mut [u64], x: Option<Addr>) -> u32
    ensures value { result ≡ 0 }
    ensures out_after { out.new ≡ written (hint_words x) out.old }
{
    match x {
        Some(a) => {
            c_words::store(out, 0, a.0);
            0
        }
        None => {
            c_words::store(out, 0, 0);
            0
        }
    }
}

// ---- searching

pub fn tell_found(out: &mut [u64], x: Result<Found, Refusal>) -> u32
    ensures value { result ≡ found_number x }
    ensures out_after { out.new ≡ written (found_words x) out.old }
{
    match x {
        Ok(x) => match x {
            Found::Is {
                slot,
                ver,
                hist,
                value,
                reads,
            } => {
                c_words::store_nine(
                    out,
                    0,
                    1,
                    slot as u64,
                    ver.txid,
                    ver.cmd as u64,
                    value.at as u64,
                    value.len as u64,
                    hist.page.0,
                    hist.slot as u64,
                    hist.count as u64,
                );
                c_words::store(out, 9, reads as u64);
                0
            }
            Found::Nothing { reads } => {
                c_words::store_five(out, 0, 0, 0, 0, 0, 0);
                c_words::store_five(out, 5, 0, 0, 0, 0, reads as u64);
                0
            }
        },
        Err(r) => c_words::no(r),
    }
}

pub fn tell_as_of(out: &mut [u64], x: Result<AsOf, Refusal>) -> u32
    ensures value { result ≡ as_of_number x }
    ensures out_after { out.new ≡ written (as_of_words x) out.old }
{
    match x {
        Ok(x) => match x {
            AsOf::Is {
                slot,
                ver,
                value,
                reads,
            } => {
                c_words::store_five(
                    out,
                    0,
                    1,
                    slot as u64,
                    ver.txid,
                    ver.cmd as u64,
                    value.at as u64,
                );
                c_words::store_two(out, 5, value.len as u64, reads as u64);
                0
            }
            AsOf::Nothing { reads } => {
                c_words::store_five(out, 0, 0, 0, 0, 0, 0);
                c_words::store_two(out, 5, 0, reads as u64);
                0
            }
        },
        Err(r) => c_words::no(r),
    }
}

pub fn tell_bound(out: &mut [u64], x: Result<Bound, Refusal>) -> u32
    ensures value { result ≡ bound_number x }
    ensures out_after { out.new ≡ written (bound_words x) out.old }
{
    match x {
        Ok(x) => match x {
            Bound::At { pos, reads } => {
                c_words::store_three(out, 0, 1, pos as u64, reads as u64);
                0
            }
            Bound::PastEnd { pos, reads } => {
                c_words::store_three(out, 0, 0, pos as u64, reads as u64);
                0
            }
        },
        Err(r) => c_words::no(r),
    }
}

pub fn tell_floor(out: &mut [u64], x: Result<Floor, Refusal>) -> u32
    ensures value { result ≡ floor_number x }
    ensures out_after { out.new ≡ written (floor_words x) out.old }
{
    match x {
        Ok(x) => match x {
            Floor::Is { slot, page, reads } => {
                c_words::store_two(out, 0, 1, slot as u64);
                c_words::store_two(out, 2, page.0, reads as u64);
                0
            }
            Floor::Nothing { reads } => {
                c_words::store_two(out, 0, 0, 0);
                c_words::store_two(out, 2, 0, reads as u64);
                0
            }
        },
        Err(r) => c_words::no(r),
    }
}

// ---- walking

pub fn tell_begun(walk: &mut [u64], x: Result<Walk, Refusal>) -> u32
    ensures value { result ≡ begun_number x }
    ensures walk_after { walk.new ≡ written (begun_words x) walk.old }
{
    match x {
        Ok(w) => {
            c_words::store_walk(walk, w);
            0
        }
        Err(r) => c_words::no(r),
    }
}

// ---- deltas

pub fn tell_leaf_key(out: &mut [u64], x: Result<LeafKey, Refusal>) -> u32
    ensures value { result ≡ refused.leaf_key_number x }
    ensures out_after { out.new ≡ written (leaf_key_words x) out.old }
{
    match x {
        Ok(LeafKey { ver, key }) => {
            c_words::store_two(out, 0, key.at as u64, key.len as u64);
            c_words::store_two(out, 2, ver.txid, ver.cmd as u64);
            0
        }
        Err(r) => c_words::no(r),
    }
}

pub fn tell_value(out: &mut [u64], x: Result<Place, Refusal>) -> u32
    ensures value { result ≡ refused.value_number x }
    ensures out_after { out.new ≡ written (value_words x) out.old }
{
    match x {
        Ok(p) => {
            c_words::store_two(out, 0, p.at as u64, p.len as u64);
            0
        }
        Err(r) => c_words::no(r),
    }
}

pub fn tell_index_key(out: &mut [u64], x: Result<Place, Refusal>) -> u32
    ensures value { result ≡ refused.index_key_number x }
    ensures out_after { out.new ≡ written (index_key_words x) out.old }
{
    match x {
        Ok(p) => {
            c_words::store_two(out, 0, p.at as u64, p.len as u64);
            0
        }
        Err(r) => c_words::no(r),
    }
}

pub fn tell_child(out: &mut [u64], x: Result<PageId, Refusal>) -> u32
    ensures value { result ≡ refused.child_number x }
    ensures out_after { out.new ≡ written (child_words x) out.old }
{
    match x {
        Ok(p) => {
            c_words::store(out, 0, p.0);
            0
        }
        Err(r) => c_words::no(r),
    }
}

pub fn tell_laid(out: &mut [u64], x: Result<Laid, Refusal>) -> u32
    ensures value { result ≡ laid_number x }
    ensures out_after { out.new ≡ written (laid_words x) out.old }
{
    match x {
        Ok(x) => match x {
            Laid::Delta(p) => {
                c_words::store_three(out, 0, 1, p.at as u64, p.len as u64);
                0
            }
            Laid::Page(p) => {
                c_words::store_three(out, 0, 2, p.at as u64, p.len as u64);
                0
            }
            Laid::Nothing => {
                c_words::store_three(out, 0, 0, 0, 0);
                0
            }
        },
        Err(r) => c_words::no(r),
    }
}
