// The clerk lent: one thin call takes the clerk itself, moves its mark and returns an address. Under it stands the clerk by value, above it
// a call with plain parameters, which others use.
#![tactic(auto)]

ghost use Rattle.std.specs.Prelude.{◌≡◌};
ghost use Rattle.frames.specs.Clerks.{taken_of};
ghost use Rattle.clerks.specs.Lent.{clerk_of};

use frames::{Addr, Clerk, Taken};

// Hands out size bytes: the clerk is lent, its mark moves, and the address is handed back; without room the address is none and the
// clerk stays.
pub fn alloc(c: &mut Clerk, size: u64) -> Addr
    ensures { (result ≡ (taken_of c.old size).addr) × (c.new ≡ (taken_of c.old size).clerk) }
{
    let was = *c;
    let t = was.take(size);
    *c = t.clerk;
    t.addr
}

// The same for a clerk at next with an arena of limit bytes: makes the clerk, lends it, and hands both back.
pub fn alloc_from(next: Addr, limit: u64, size: u64) -> Taken
    ensures { result ≡ taken_of (clerk_of next limit) size }
{
    let mut c = Clerk { next, limit };
    let addr = alloc(&mut c, size);
    Taken { addr, clerk: c }
}
