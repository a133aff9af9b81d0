// The C interface: every public call of the port over slices and numbers, as include/cresttrestle.h names them. A call hands its slices
// on, writes the words of the answer to `out` and returns the number of the refusal, 0 where there is none.
#![tactic(auto)]

ghost use Rattle.std.specs.Prelude.{◌≡◌, length};
ghost use Rattle.frames.specs.Layout.{addr, page_id, open_at};
ghost use Rattle.order.specs.Version.{ver_of};
ghost use Rattle.pages.specs.Meaning.{meaning, check_of};
ghost use Rattle.pages.specs.Boundaries.{bounds_at};
ghost use Rattle.pages.specs.HintsAt.{history_hints_at, remote_hints_at, hint_in};
ghost use Rattle.pages.specs.Refused.{checked_number, bounds_number, hints_number};
ghost use Rattle.sst.specs.Search.{search_at, floor_at, lower_at};
ghost use Rattle.sst.specs.Refused.{found_number, floor_number, bound_number};
ghost use Rattle.asof.specs.AsOf.{as_of_at};
ghost use Rattle.asof.specs.Refused.{as_of_number};
ghost use Rattle.walks.specs.Walk.{forward_at, backward_at, step_at};
ghost use Rattle.walks.specs.Refused.{begun_number, step_number};
ghost use Rattle.build_image.specs.Prefix.{common};
ghost use Rattle.build_image.specs.Call as call;
ghost use Rattle.base.specs.Calls as calls;
ghost use Rattle.merge.specs.Answer.{merge_answer, merge_arena};
ghost use Rattle.delta.specs.Built.{leaf_built, leaf_arena, index_built, index_arena};
ghost use Rattle.delta.specs.Read.{leaf_key_at, index_key_at, value_at, child_at};
ghost use Rattle.delta.specs.Refused as refused;
ghost use Rattle.overlay.specs.Overlay.{laid_at, laid_number};
ghost use Rattle.c_steps.specs.Steps.{run_number, run_walk, steps_at, steps_words};
ghost use Rattle.c_words.specs.Words.{written, walk_in, step_words, moved_words};
ghost use Rattle.c_answers.specs.Answers.{prefix_words, built_words, page_words, hints_words, hints_from, hint_words, found_words, as_of_words, bound_words, floor_words, begun_words, leaf_key_words, index_key_words, value_words, child_words, laid_words};

use frames::{Addr, PageId, Refusal};
use order::Ver;
use pages::Hints;

// ---- building

#[unsafe(no_mangle)]
pub extern "C" fn ct_calc_prefix(lo: &[u8], hi: &[u8], out: &mut [u64]) -> u32
    ensures value { result ≡ 0 }
    ensures out_after { out.new ≡ written (prefix_words (common lo.now hi.now)) out.old }
{
    let n = base::calc_prefix(lo, hi);
    c_words::store(out, 0, n as u64);
    0
}

#[unsafe(no_mangle)]
pub extern "C" fn ct_new_leaf(
    arena: &mut [u8],
    next: usize,
    list: &[u8],
    lo: &[u8],
    hi: &[u8],
    sibling: u64,
    limit: usize,
    budget: usize,
    group: u8,
    txid: u64,
    lsn: u64,
    checkpoint: u64,
    out: &mut [u64],
) -> u32
    ensures value { result ≡ call.built_number (calls.new_answer arena.old next list.now (call.call_of limit budget group txid lsn checkpoint) (calls.bounds_from lo.now hi.now sibling)) }
    ensures arena_after { arena.new ≡ calls.new_arena arena.old next list.now (call.call_of limit budget group txid lsn checkpoint) (calls.bounds_from lo.now hi.now sibling) }
    ensures out_after { out.new ≡ written (built_words (calls.new_answer arena.old next list.now (call.call_of limit budget group txid lsn checkpoint) (calls.bounds_from lo.now hi.now sibling))) out.old }
{
    let x = base::new_leaf(
        arena,
        next,
        list,
        lo,
        hi,
        PageId(sibling),
        limit,
        budget,
        group,
        txid,
        lsn,
        checkpoint,
    );
    c_answers::tell_built(out, x)
}

#[unsafe(no_mangle)]
pub extern "C" fn ct_new_intl(
    arena: &mut [u8],
    next: usize,
    list: &[u8],
    lo: &[u8],
    hi: &[u8],
    sibling: u64,
    group: u8,
    txid: u64,
    lsn: u64,
    checkpoint: u64,
    out: &mut [u64],
) -> u32
    ensures value { result ≡ call.built_number (calls.new_index_answer arena.old next list.now (call.call_of 0 0 group txid lsn checkpoint) (calls.bounds_from lo.now hi.now sibling)) }
    ensures arena_after { arena.new ≡ calls.new_index_arena arena.old next list.now (call.call_of 0 0 group txid lsn checkpoint) (calls.bounds_from lo.now hi.now sibling) }
    ensures out_after { out.new ≡ written (built_words (calls.new_index_answer arena.old next list.now (call.call_of 0 0 group txid lsn checkpoint) (calls.bounds_from lo.now hi.now sibling))) out.old }
{
    let x = base::new_intl(
        arena,
        next,
        list,
        lo,
        hi,
        PageId(sibling),
        group,
        txid,
        lsn,
        checkpoint,
    );
    c_answers::tell_built(out, x)
}

#[unsafe(no_mangle)]
pub extern "C" fn ct_merge(
    arena: &mut [u8],
    next: usize,
    left: u64,
    right: u64,
    limit: usize,
    budget: usize,
    group: u8,
    txid: u64,
    lsn: u64,
    checkpoint: u64,
    out: &mut [u64],
) -> u32
    ensures value { result ≡ call.built_number (merge_answer arena.old next (call.call_of limit budget group txid lsn checkpoint) (addr left) (addr right)) }
    ensures arena_after { arena.new ≡ merge_arena arena.old next (call.call_of limit budget group txid lsn checkpoint) (addr left) (addr right) }
    ensures out_after { out.new ≡ written (built_words (merge_answer arena.old next (call.call_of limit budget group txid lsn checkpoint) (addr left) (addr right))) out.old }
{
    let x = merge::merge(
        arena,
        next,
        Addr(left),
        Addr(right),
        limit,
        budget,
        group,
        txid,
        lsn,
        checkpoint,
    );
    c_answers::tell_built(out, x)
}

#[unsafe(no_mangle)]
pub extern "C" fn ct_delta_leaf(
    arena: &mut [u8],
    next: usize,
    limit: usize,
    group: u8,
    lsn: u64,
    checkpoint: u64,
    txid: u64,
    cmd: u32,
    key: &[u8],
    value: &[u8],
    out: &mut [u64],
) -> u32
    ensures value { result ≡ call.built_number (leaf_built (call.call_of limit 0 group txid lsn checkpoint) (length arena.old) next (length key.now) (length value.now)) }
    ensures arena_after { arena.new ≡ leaf_arena (call.call_of limit 0 group txid lsn checkpoint) arena.old next (ver_of txid cmd) key.now value.now }
    ensures out_after { out.new ≡ written (built_words (leaf_built (call.call_of limit 0 group txid lsn checkpoint) (length arena.old) next (length key.now) (length value.now))) out.old }
{
    let x = delta::from_key_val(
        arena,
        next,
        limit,
        group,
        lsn,
        checkpoint,
        Ver::new(txid, cmd),
        key,
        value,
    );
    c_answers::tell_built(out, x)
}

#[unsafe(no_mangle)]
pub extern "C" fn ct_delta_index(
    arena: &mut [u8],
    next: usize,
    group: u8,
    txid: u64,
    lsn: u64,
    checkpoint: u64,
    key: &[u8],
    page: u64,
    out: &mut [u64],
) -> u32
    ensures value { result ≡ call.built_number (index_built (length arena.old) next (length key.now)) }
    ensures arena_after { arena.new ≡ index_arena (call.call_of 0 0 group txid lsn checkpoint) arena.old next key.now (page_id page) }
    ensures out_after { out.new ≡ written (built_words (index_built (length arena.old) next (length key.now))) out.old }
{
    let x = delta::from_key_index(arena, next, txid, group, lsn, checkpoint, key, PageId(page));
    c_answers::tell_built(out, x)
}

// ---- reading a page

#[unsafe(no_mangle)]
pub extern "C" fn ct_check(arena: &[u8], at: u64) -> u32
    ensures { result ≡ checked_number (check_of (meaning arena.now (addr at))) }
{
    match pages::check(arena, Addr(at)) {
        Ok(()) => 0,
        Err(r) => c_words::no(r),
    }
}

#[unsafe(no_mangle)]
pub extern "C" fn ct_page(arena: &[u8], at: u64, out: &mut [u64]) -> u32
    ensures value { result ≡ bounds_number (bounds_at arena.now (addr at)) }
    ensures out_after { out.new ≡ written (page_words (open_at arena.now (addr at)) (bounds_at arena.now (addr at))) out.old }
{
    let Some(b) = frames::open_at(arena, Addr(at)) else {
        return c_words::no(Refusal::BadFrame);
    };
    let x = pages::bounds_at(arena, Addr(at));
    c_answers::tell_page(out, b.kind, b.elems, x)
}

#[unsafe(no_mangle)]
pub extern "C" fn ct_history_hints(arena: &[u8], at: u64, out: &mut [u64]) -> u32
    ensures value { result ≡ hints_number (history_hints_at arena.now (addr at)) }
    ensures out_after { out.new ≡ written (hints_words (history_hints_at arena.now (addr at))) out.old }
{
    let x = pages::history_hints(arena, Addr(at));
    c_answers::tell_hints(out, x)
}

#[unsafe(no_mangle)]
pub extern "C" fn ct_remote_hints(arena: &[u8], at: u64, out: &mut [u64]) -> u32
    ensures value { result ≡ hints_number (remote_hints_at arena.now (addr at)) }
    ensures out_after { out.new ≡ written (hints_words (remote_hints_at arena.now (addr at))) out.old }
{
    let x = pages::remote_hints(arena, Addr(at));
    c_answers::tell_hints(out, x)
}

#[unsafe(no_mangle)]
pub extern "C" fn ct_hint(arena: &[u8], at: usize, count: usize, k: usize, out: &mut [u64]) -> u32
    ensures value { result ≡ 0 }
    ensures out_after { out.new ≡ written (hint_words (hint_in arena.now (hints_from at count) k)) out.old }
{
    let h = Hints { at, count };
    let x = pages::hint_at(arena, h, k);
    c_answers::tell_hint(out, x)
}

// ---- searching

#[unsafe(no_mangle)]
pub extern "C" fn ct_search(arena: &[u8], at: u64, key: &[u8], out: &mut [u64]) -> u32
    ensures value { result ≡ found_number (search_at arena.now (addr at) key.now) }
    ensures out_after { out.new ≡ written (found_words (search_at arena.now (addr at) key.now)) out.old }
{
    let x = sst::search_ver_val_by_raw(arena, Addr(at), key);
    c_answers::tell_found(out, x)
}

#[unsafe(no_mangle)]
pub extern "C" fn ct_as_of(
    arena: &[u8],
    at: u64,
    key: &[u8],
    txid: u64,
    cmd: u32,
    out: &mut [u64],
) -> u32
    ensures value { result ≡ as_of_number (as_of_at arena.now (addr at) key.now (ver_of txid cmd)) }
    ensures out_after { out.new ≡ written (as_of_words (as_of_at arena.now (addr at) key.now (ver_of txid cmd))) out.old }
{
    let x = asof::as_of(arena, Addr(at), key, Ver::new(txid, cmd));
    c_answers::tell_as_of(out, x)
}

#[unsafe(no_mangle)]
pub extern "C" fn ct_lower_bound(
    arena: &[u8],
    at: u64,
    key: &[u8],
    txid: u64,
    cmd: u32,
    out: &mut [u64],
) -> u32
    ensures value { result ≡ bound_number (lower_at arena.now (addr at) key.now (ver_of txid cmd)) }
    ensures out_after { out.new ≡ written (bound_words (lower_at arena.now (addr at) key.now (ver_of txid cmd))) out.old }
{
    let x = sst::lower_bound(arena, Addr(at), key, Ver::new(txid, cmd));
    c_answers::tell_bound(out, x)
}

#[unsafe(no_mangle)]
pub extern "C" fn ct_floor(arena: &[u8], at: u64, key: &[u8], out: &mut [u64]) -> u32
    ensures value { result ≡ floor_number (floor_at arena.now (addr at) key.now) }
    ensures out_after { out.new ≡ written (floor_words (floor_at arena.now (addr at) key.now)) out.old }
{
    let x = sst::floor_pid_by_raw(arena, Addr(at), key);
    c_answers::tell_floor(out, x)
}

// ---- walking

#[unsafe(no_mangle)]
pub extern "C" fn ct_forward(
    arena: &[u8],
    at: u64,
    begin: usize,
    end: usize,
    walk: &mut [u64],
) -> u32
    ensures value { result ≡ begun_number (forward_at arena.now (addr at) begin end) }
    ensures walk_after { walk.new ≡ written (begun_words (forward_at arena.now (addr at) begin end)) walk.old }
{
    let x = walks::forward(arena, Addr(at), begin, end);
    c_answers::tell_begun(walk, x)
}

#[unsafe(no_mangle)]
pub extern "C" fn ct_backward(arena: &[u8], at: u64, start: i64, end: i64, walk: &mut [u64]) -> u32
    ensures value { result ≡ begun_number (backward_at arena.now (addr at) start end) }
    ensures walk_after { walk.new ≡ written (begun_words (backward_at arena.now (addr at) start end)) walk.old }
{
    let x = walks::backward(arena, Addr(at), start, end);
    c_answers::tell_begun(walk, x)
}

#[unsafe(no_mangle)]
pub extern "C" fn ct_step(arena: &[u8], walk: &mut [u64], out: &mut [u64]) -> u32
    ensures value { result ≡ step_number (step_at arena.now (walk_in walk.old)) }
    ensures walk_after { walk.new ≡ written (moved_words (step_at arena.now (walk_in walk.old))) walk.old }
    ensures out_after { out.new ≡ written (step_words (step_at arena.now (walk_in walk.old))) out.old }
{
    c_step::step(arena, walk, out)
}

#[unsafe(no_mangle)]
pub extern "C" fn ct_steps(arena: &[u8], walk: &mut [u64], out: &mut [u64]) -> u32
    ensures value { result ≡ run_number (steps_at arena.now walk.old (length out.old)) }
    ensures walk_after { walk.new ≡ written (run_walk (steps_at arena.now walk.old (length out.old))) walk.old }
    ensures out_after { out.new ≡ written (steps_words arena.now walk.old (length out.old)) out.old }
{
    let room = c_steps::room_in(out.len());
    let w = c_words::walk_in(&walk[..]);
    let x = c_steps::fill(arena, w, out, 1, room);
    c_steps::tell_run(walk, out, x)
}

// ---- deltas

#[unsafe(no_mangle)]
pub extern "C" fn ct_delta_key(arena: &[u8], at: u64, out: &mut [u64]) -> u32
    ensures value { result ≡ refused.leaf_key_number (leaf_key_at arena.now (addr at)) }
    ensures out_after { out.new ≡ written (leaf_key_words (leaf_key_at arena.now (addr at))) out.old }
{
    let x = delta::key(arena, Addr(at));
    c_answers::tell_leaf_key(out, x)
}

#[unsafe(no_mangle)]
pub extern "C" fn ct_delta_val(arena: &[u8], at: u64, out: &mut [u64]) -> u32
    ensures value { result ≡ refused.value_number (value_at arena.now (addr at)) }
    ensures out_after { out.new ≡ written (value_words (value_at arena.now (addr at))) out.old }
{
    let x = delta::val(arena, Addr(at));
    c_answers::tell_value(out, x)
}

#[unsafe(no_mangle)]
pub extern "C" fn ct_delta_index_key(arena: &[u8], at: u64, out: &mut [u64]) -> u32
    ensures value { result ≡ refused.index_key_number (index_key_at arena.now (addr at)) }
    ensures out_after { out.new ≡ written (index_key_words (index_key_at arena.now (addr at))) out.old }
{
    let x = delta::index_key(arena, Addr(at));
    c_answers::tell_index_key(out, x)
}

#[unsafe(no_mangle)]
pub extern "C" fn ct_delta_child(arena: &[u8], at: u64, out: &mut [u64]) -> u32
    ensures value { result ≡ refused.child_number (child_at arena.now (addr at)) }
    ensures out_after { out.new ≡ written (child_words (child_at arena.now (addr at))) out.old }
{
    let x = delta::index(arena, Addr(at));
    c_answers::tell_child(out, x)
}

#[unsafe(no_mangle)]
pub extern "C" fn ct_overlay(
    arena: &[u8],
    at: u64,
    buffer: &[u8],
    delta: u64,
    key: &[u8],
    out: &mut [u64],
) -> u32
    ensures value { result ≡ laid_number (laid_at arena.now (addr at) buffer.now (addr delta) key.now) }
    ensures out_after { out.new ≡ written (laid_words (laid_at arena.now (addr at) buffer.now (addr delta) key.now)) out.old }
{
    let x = overlay::answer(arena, Addr(at), buffer, Addr(delta), key);
    c_answers::tell_laid(out, x)
}
