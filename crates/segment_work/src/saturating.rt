//! Sums and products up to the last value of 64 bits.
ghost use Rattle.std.specs.Prelude.{◌≡◌, ℕ, ◌+◌, ◌*◌};
ghost use Rattle.record_law.specs.Counting.{up_to_last};

/// The number itself, which is no greater than the last value.
pub(crate) fn exact(n: u64) -> u64
    ensures { result ≡ up_to_last n }
{
    n
}

/// The sum of two numbers that are cut at the last value, cut there too.
#[tactic(auto, using(crate::proofs::Cuts::sum_cut))]
pub(crate) fn plus(a: u64, b: u64) -> u64
    ensures { (x y : ℕ) → a ≡ up_to_last x → b ≡ up_to_last y → result ≡ up_to_last (x + y) }
{
    a.saturating_add(b)
}

/// The product of two numbers that are cut at the last value, cut there too.
#[tactic(auto, using(crate::proofs::Cuts::product_cut))]
pub(crate) fn times(a: u64, b: u64) -> u64
    ensures { (x y : ℕ) → a ≡ up_to_last x → b ≡ up_to_last y → result ≡ up_to_last (x * y) }
{
    a.saturating_mul(b)
}
