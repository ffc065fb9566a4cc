// A word as a set of bits: test, set, clear, lowest. The union of two words is `|` itself.
#![tactic(auto)]

ghost use Rattle.std.specs.Prelude.{◌≡◌, ◌^◌, ◌<◌};
ghost use Rattle.bits.specs.Bit.{bit_of, with_bit, without, Lowest};

// Bit k of w.
pub fn bit(w: u64, k: usize) -> bool
    requires { k < 64 }
    ensures { result ≡ bit_of w k }
{
    (w >> k) % 2 == 1
}

// w with bit k set too.
pub fn with_bit(w: u64, k: usize) -> u64
    requires { k < 64 }
    ensures { result ≡ with_bit w k }
{
    w | (1 << k)
}

// w without bit k.
pub fn without_bit(w: u64, k: usize) -> u64
    requires { k < 64 }
    ensures { result ≡ without w (2 ^ k) }
{
    w & (w ^ (1 << k))
}

// The number of the lowest bit that is set.
pub fn lowest(w: u64) -> usize
    requires { w ≡ 0 → ⊥ }
    ensures { Lowest 64 w result }
{
    w.trailing_zeros() as usize
}
