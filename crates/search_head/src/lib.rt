// The head of a leaf page that has a probe as its key, by search's halving: its key alone is read. The overlay and the lookup as of a
// version share it.
#![tactic(auto)]

ghost use Rattle.std.specs.Prelude.{◌≡◌};
ghost use Rattle.frames.specs.Layout.{Inside};
ghost use Rattle.search_head.specs.Head.{head_slot, head_in, head_at};

use frames::{Addr, Body, Refusal};
use order::Ver;
use sst::{Halved, Outcome, Want};
use values::KeyParts;

// Its page, slot and version, where its value begins, and the number of keys that the halving read. The value is not judged.
#[derive(Clone, Copy)]
pub enum Head {
    Is {
        page: Body,
        slot: usize,
        ver: Ver,
        value: usize,
        reads: usize,
    },
    Nothing {
        reads: usize,
    },
}

// The key of slot i again, for its version and its end.
fn head_slot(s: &[u8], b: Body, i: usize, reads: usize) -> Result<Head, Refusal>
    requires inside { Inside s.now b }
    requires kind_value { b.kind ≡ 0 }
    ensures { result ≡ head_slot s.now b i reads }
{
    let Some(k) = records::key_at(s, b, i) else {
        return Err(Refusal::BadFrame);
    };
    Ok(Head::Is {
        page: b,
        slot: i,
        ver: records::ver_at(s, k.ver_at),
        value: k.rest_at + k.rest_len,
        reads,
    })
}

fn head_in(s: &[u8], b: Body, h: Option<Halved>) -> Result<Head, Refusal>
    requires inside { Inside s.now b }
    requires kind_value { b.kind ≡ 0 }
    ensures { result ≡ head_in s.now b h }
{
    let Some(h) = h else {
        return Err(Refusal::BadFrame);
    };
    match h {
        Halved::At(i, n) => head_slot(s, b, i, n),
        Halved::End(_, n) => Ok(Head::Nothing { reads: n }),
    }
}

// The head that search finds, by the same halving.
pub fn head_at(s: &[u8], a: Addr, probe: &[u8]) -> Result<Head, Refusal>
    ensures { result ≡ head_at s.now a probe.now }
{
    let w = Want {
        leaf: true,
        index: false,
        lower: false,
        ver: Ver::new(0, 0),
    };
    let Some(outcome) = sst::halve_at(s, a, probe, w) else {
        return Err(Refusal::BadFrame);
    };
    match outcome {
        Outcome::Empty => Ok(Head::Nothing { reads: 0 }),
        Outcome::Stands(b, h) => head_in(s, b, h),
    }
}
