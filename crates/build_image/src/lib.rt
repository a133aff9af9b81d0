// What every build shares: what a call is told and answers, what numbers 1 and 2 ask, sizes and addresses as numbers, and a page's two
// headers. The image itself is a definition (specs/Image.antt); the crates above write it.
#![tactic(auto)]

ghost use Rattle.std.specs.Prelude.{◌≡◌, ◌+◌, ◌≤◌, length};
ghost use Rattle.spans.specs.Span.{put};
ghost use Rattle.frames.specs.Layout.{slots_at};
ghost use Rattle.frames.specs.Limits.{max_value};
ghost use Rattle.frames.specs.Stored.{page_bytes};
ghost use Rattle.build_image.specs.Call.{larger, call_of, limit_ok, budget_ok, limits_ok, default_budget, rust_budget, next_ok};
ghost use Rattle.build_image.specs.Sizes.{remote_len};
ghost use Rattle.build_image.specs.Image.{page_box, remote_addr};

use frames::{Addr, BaseHeader, BoxHeader, Refusal};

// What a build is told beside its entries: the inline limit, the budget of a history page, and what its frames' headers carry.
#[derive(Clone, Copy)]
pub struct Call {
    pub limit: usize,
    pub budget: usize,
    pub group: u8,
    pub txid: u64,
    pub lsn: u64,
}

// "lsn is the larger of the given and the checkpoint's"
fn larger(x: u64, y: u64) -> u64
    ensures { result ≡ larger x y }
{
    x.max(y)
}

// What a call is told, as one value.
pub fn call_of(limit: usize, budget: usize, group: u8, txid: u64, lsn: u64, checkpoint: u64) -> Call
    ensures { result ≡ call_of limit budget group txid lsn checkpoint }
{
    Call {
        limit,
        budget,
        group,
        txid,
        lsn: larger(lsn, checkpoint),
    }
}

// "inline limit not 1..65,536" is BAD LIMIT.
pub fn limit_ok(limit: usize) -> bool
    ensures { result ≡ limit_ok limit }
{
    (1 <= limit) & (limit <= BaseHeader::MAX_LIMIT)
}

// "budget not 256..131,072" is BAD LIMIT.
fn budget_ok(budget: usize) -> bool
    ensures { result ≡ budget_ok budget }
{
    (BaseHeader::MIN_BUDGET <= budget) & (budget <= BaseHeader::MAX_BUDGET)
}

// Both.
pub fn limits_ok(limit: usize, budget: usize) -> bool
    ensures { result ≡ limits_ok limit budget }
{
    let inline = limit_ok(limit);
    let paged = budget_ok(budget);
    inline & paged
}

// The two budgets that have a name: the default, and the Rust's. A Rattle caller passes one of them; the contracts hold the constants to the
// definitions, of which `named_budgets` says that number 1 accepts both.
pub fn default_budget() -> usize
    ensures { result ≡ default_budget }
{
    BaseHeader::HIST_PAGE_BUDGET
}

pub fn rust_budget() -> usize
    ensures { result ≡ rust_budget }
{
    BaseHeader::RUST_HIST_PAGE_BUDGET
}

// "next free address below 8, not a multiple of 8, or above the arena's length" is BAD ARENA.
pub fn next_ok(len: usize, next: usize) -> bool
    ensures { result ≡ next_ok len next }
{
    (8 <= next) & (next % 8 == 0) & (next <= len)
}

// The remote frame that a value of n bytes takes.
pub fn remote_len(limit: usize, n: usize, kept: Addr) -> usize
    requires { n ≤ max_value }
    ensures { result ≡ remote_len limit n kept.0 }
{
    if n < limit {
        return 0;
    }
    if kept.0 == 0 {
        return frames::frame_len((8 + n) as u32);
    }
    0
}

// A remote's address: where its new frame will stand, or where it stands already.
pub fn remote_addr(remote: usize, kept: Addr) -> u64
    ensures { result ≡ remote_addr remote kept.0 }
{
    if kept.0 == 0 {
        return remote as u64;
    }
    kept.0
}

// Both headers of a page of this call.
pub fn page_head(
    a: &mut [u8],
    at: usize,
    m: Call,
    payload: u32,
    node: u8,
    flag: u8,
    link: Addr,
    b: BaseHeader,
)
    requires { at + slots_at ≤ length a.old }
    ensures { a.new ≡ put a.old at (page_bytes (page_box m payload node flag link.0) b) }
{
    let h = BoxHeader {
        payload_size: payload,
        box_kind: BoxHeader::BASE,
        node_type: node,
        flag,
        group: m.group,
        link,
        txid: m.txid,
        lsn: m.lsn,
    };
    frames::put_page(a, at, h, b);
}
