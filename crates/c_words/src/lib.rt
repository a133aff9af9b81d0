// Words of the C interface: stored in a slice that its caller lends, which may be too short; a walk and its records as words.
#![tactic(auto)]

ghost use Rattle.std.specs.Prelude.{◌≡◌, [], ◌∷◌, ◌+◌, ◌<◌, ◌≤◌, ◌^◌, length, get_or};
ghost use Rattle.spans.specs.Span.{put};
ghost use Rattle.frames.specs.Refusals.{number_of};
ghost use Rattle.walks.specs.Walk.{behind_of};
ghost use Rattle.c_words.specs.Words.{written, sheet_in, older_in, walk_in, sheet_words, walk_words, aged_to, head_to, item_words, branch_words, end_words};

use frames::{Addr, Refusal};
use pages::Place;
use walks::{Branch, Item, OldPlace, Sheet, Walk};

// Stores a word, where the slice has it.
pub fn store(out: &mut [u64], k: usize, w: u64)
    ensures { out.new ≡ put out.old k (w ∷ []) }
{
    if k < out.len() {
        out[k] = w;
    }
}

pub fn store_two(out: &mut [u64], k: usize, a: u64, b: u64)
    requires { k + 2 < 2 ^ 64 }
    ensures { out.new ≡ put out.old k (a ∷ b ∷ []) }
{
    store(out, k, a);
    store(out, k + 1, b);
}

pub fn store_three(out: &mut [u64], k: usize, a: u64, b: u64, c: u64)
    requires { k + 3 < 2 ^ 64 }
    ensures { out.new ≡ put out.old k (a ∷ b ∷ c ∷ []) }
{
    store(out, k, a);
    store(out, k + 1, b);
    store(out, k + 2, c);
}

pub fn store_five(out: &mut [u64], k: usize, a: u64, b: u64, c: u64, d: u64, e: u64)
    requires { k + 5 < 2 ^ 64 }
    ensures { out.new ≡ put out.old k (a ∷ b ∷ c ∷ d ∷ e ∷ []) }
{
    store(out, k, a);
    store(out, k + 1, b);
    store(out, k + 2, c);
    store(out, k + 3, d);
    store(out, k + 4, e);
}

// Nine words, each where the slice has it.
fn store_each(
    out: &mut [u64],
    k: usize,
    a: u64,
    b: u64,
    c: u64,
    d: u64,
    e: u64,
    f: u64,
    g: u64,
    h: u64,
    i: u64,
)
    requires { k + 9 < 2 ^ 64 }
    ensures { out.new ≡ put out.old k (a ∷ b ∷ c ∷ d ∷ e ∷ f ∷ g ∷ h ∷ i ∷ []) }
{
    store_three(out, k, a, b, c);
    store_three(out, k + 3, d, e, f);
    store_three(out, k + 6, g, h, i);
}

// Two words that the slice has.
fn put_two(out: &mut [u64], k: usize, a: u64, b: u64)
    requires { k + 2 ≤ length out.old }
    ensures { out.new ≡ put out.old k (a ∷ b ∷ []) }
{
    out[k] = a;
    out[k + 1] = b;
}

// Three words that the slice has.
fn put_three(out: &mut [u64], k: usize, a: u64, b: u64, c: u64)
    requires { k + 3 ≤ length out.old }
    ensures { out.new ≡ put out.old k (a ∷ b ∷ c ∷ []) }
{
    out[k] = a;
    out[k + 1] = b;
    out[k + 2] = c;
}

// Nine words that the slice has.
pub fn put_nine(
    out: &mut [u64],
    k: usize,
    a: u64,
    b: u64,
    c: u64,
    d: u64,
    e: u64,
    f: u64,
    g: u64,
    h: u64,
    i: u64,
)
    requires { k + 9 ≤ length out.old }
    ensures { out.new ≡ put out.old k (a ∷ b ∷ c ∷ d ∷ e ∷ f ∷ g ∷ h ∷ i ∷ []) }
{
    put_three(out, k, a, b, c);
    put_three(out, k + 3, d, e, f);
    put_three(out, k + 6, g, h, i);
}

// Nine words, with one question whether the slice has them.
pub fn store_nine(
    out: &mut [u64],
    k: usize,
    a: u64,
    b: u64,
    c: u64,
    d: u64,
    e: u64,
    f: u64,
    g: u64,
    h: u64,
    i: u64,
)
    requires { k + 9 < 2 ^ 64 }
    ensures { out.new ≡ put out.old k (a ∷ b ∷ c ∷ d ∷ e ∷ f ∷ g ∷ h ∷ i ∷ []) }
{
    if spans::room(out.len(), k, 9) {
        put_nine(out, k, a, b, c, d, e, f, g, h, i);
        return;
    }
    store_each(out, k, a, b, c, d, e, f, g, h, i);
}

// A word of a slice, 0 behind its end.
fn word(words: &[u64], k: usize) -> u64
    ensures { result ≡ get_or words.now k 0 }
{
    words.get(k).copied().unwrap_or(0)
}

// A refusal's number, as the C interface answers it.
pub fn no(r: Refusal) -> u32
    ensures { result ≡ number_of r }
{
    frames::number(r) as u32
}

// ---- walks

// The sheet in the five words from k on.
fn sheet_in(words: &[u64], k: usize) -> Sheet
    requires { k + 5 < 2 ^ 64 }
    ensures { result ≡ sheet_in words.now k }
{
    Sheet {
        at: word(words, k) as usize,
        elems: word(words, k + 1) as usize,
        front: word(words, k + 2) as usize,
        end: word(words, k + 3) as usize,
        prefix_len: word(words, k + 4) as usize,
    }
}

fn older_in(words: &[u64]) -> OldPlace
    ensures { result ≡ older_in words.now }
{
    OldPlace {
        page: sheet_in(words, 10),
        link: Addr(word(words, 15)),
        slot: word(words, 16) as usize,
        left: word(words, 17) as usize,
    }
}

// The walk in a caller's words: any words are some walk.
pub fn walk_in(words: &[u64]) -> Walk
    ensures { result ≡ walk_in words.now }
{
    Walk {
        page: sheet_in(words, 0),
        way: word(words, 5) as usize,
        pos: word(words, 6) as usize,
        heads: word(words, 7) as usize,
        key: Place {
            at: word(words, 8) as usize,
            len: word(words, 9) as usize,
        },
        older: older_in(words),
    }
}

fn store_sheet(out: &mut [u64], k: usize, v: Sheet)
    requires { k + 5 < 2 ^ 64 }
    ensures { out.new ≡ put out.old k (sheet_words v) }
{
    store_five(
        out,
        k,
        v.at as u64,
        v.elems as u64,
        v.front as u64,
        v.end as u64,
        v.prefix_len as u64,
    );
}

pub fn store_walk(out: &mut [u64], w: Walk)
    ensures { out.new ≡ written (walk_words w) out.old }
{
    store_sheet(out, 0, w.page);
    store_three(out, 5, w.way as u64, w.pos as u64, w.heads as u64);
    store_two(out, 8, w.key.at as u64, w.key.len as u64);
    let older = w.older;
    store_sheet(out, 10, older.page);
    store_three(out, 15, older.link.0, older.slot as u64, older.left as u64);
}

// ---- the words of a walk that a step changes, where the slice has all eighteen: stored alone, they leave what `store_walk` would leave

// Behind an old version, on the same history page.
pub fn put_older(walk: &mut [u64], slot: usize, left: usize)
    requires { 18 ≤ length walk.old }
    ensures { walk.new ≡ written (walk_words (aged_to (walk_in walk.old) slot left)) walk.old }
{
    put_two(walk, 16, slot as u64, left as u64);
}

// Behind a head.
pub fn put_on(walk: &mut [u64], pos: usize, heads: usize, key: Place)
    requires { 18 ≤ length walk.old }
    ensures { walk.new ≡ written (walk_words (head_to (walk_in walk.old) pos heads key)) walk.old }
{
    put_two(walk, 6, pos as u64, heads as u64);
    put_two(walk, 8, key.at as u64, key.len as u64);
}

// A history page entered.
pub fn put_entered(walk: &mut [u64], older: OldPlace)
    requires { 18 ≤ length walk.old }
    ensures { walk.new ≡ written (walk_words (behind_of (walk_in walk.old) older)) walk.old }
{
    let v = older.page;
    put_three(walk, 10, v.at as u64, v.elems as u64, v.front as u64);
    put_three(walk, 13, v.end as u64, v.prefix_len as u64, older.link.0);
    put_two(walk, 16, older.slot as u64, older.left as u64);
}

// A record's nine words from word k on.
pub fn store_item(out: &mut [u64], k: usize, x: Item)
    requires { k + 9 < 2 ^ 64 }
    ensures { out.new ≡ put out.old k (item_words x) }
{
    store_nine(
        out,
        k,
        1,
        x.key.at as u64,
        x.key.len as u64,
        x.ver.txid,
        x.ver.cmd as u64,
        x.value.at as u64,
        x.value.len as u64,
        x.remote.0,
        x.named.0,
    );
}

pub fn store_branch(out: &mut [u64], k: usize, x: Branch)
    requires { k + 9 < 2 ^ 64 }
    ensures { out.new ≡ put out.old k (branch_words x) }
{
    store_each(
        out,
        k,
        2,
        x.key.at as u64,
        x.key.len as u64,
        x.page.0,
        0,
        0,
        0,
        0,
        0,
    );
}

pub fn store_end(out: &mut [u64])
    ensures { out.new ≡ written end_words out.old }
{
    store_each(out, 0, 0, 0, 0, 0, 0, 0, 0, 0, 0);
}
