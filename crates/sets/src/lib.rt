// Sets of signals or of processes: bit n for signal or process n.
#![tactic(auto)]

ghost use Rattle.std.specs.Prelude.{◌≡◌, ◌&&◌, ◌||◌, ◌<◌, eqb};
ghost use Rattle.base.specs.Below.{any_below};
ghost use Rattle.sets.specs.Sets.{in_set, SetOf};

// Whether signal or process n is in the set.
pub fn has(set: usize, n: usize) -> bool
    requires { n < 32 }
    ensures { result ≡ in_set set n }
{
    (set >> n) % 2 == 1
}

// The set, with n where b holds.
pub fn with(set: u32, n: usize, b: bool) -> u32
    requires { n < 32 }
    ensures { SetOf (λ s. in_set set s || (eqb n s && b)) result }
{
    if b { set | (1 << n) } else { set }
}

// Whether a number is in both sets.
pub fn meet(a: u32, b: u32) -> bool
    ensures { result ≡ any_below (λ s. in_set a s && in_set b s) 32 }
{
    a & b != 0
}

// The numbers that are in either set.
pub fn join(a: u32, b: u32) -> u32
    ensures { SetOf (λ s. in_set a s || in_set b s) result }
{
    a | b
}
