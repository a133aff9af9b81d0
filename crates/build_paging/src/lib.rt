// Cutting old versions into history pages: arithmetic on sizes only.
#![tactic(auto)]

ghost use Rattle.std.specs.Prelude.{◌≡◌};
ghost use Rattle.build_paging.specs.Cuts.{fits};

// Whether a page of this count and size takes one more of size s.
pub fn takes(budget: usize, count: usize, size: usize, s: usize) -> bool
    ensures { result ≡ fits budget count size s }
{
    if count == 0 {
        return true;
    }
    if budget < s {
        return false;
    }
    size <= budget - s
}
