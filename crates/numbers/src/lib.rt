// Numbers, for all crates.

#![tactic(auto)]

ghost use Rattle.std.specs.Prelude.{◌≡◌, min};

// The smaller of two numbers: a count beyond what there is counts as all of it.
pub fn min(a: usize, b: usize) -> usize
    ensures { result ≡ min a b }
{
    if a < b { a } else { b }
}
