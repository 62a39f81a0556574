// The short code's bounds and sizes.
ghost use Rattle.std.specs.Prelude.{◌≡◌, true};
ghost use Rattle.parameters.specs.Bounds.{short_fits};
ghost use Rattle.parameters.specs.Measures.{short_sizes};

use crate::Sizes;

// Whether N, K and S are within the bounds of the short code.
#[tactic(auto, unfolding(crate::specs::Bounds::short_fits))]
pub fn fits(n: usize, k: usize, s: usize) -> bool
    ensures { result ≡ short_fits n k s }
{
    crate::common_fits(n, s) && 1 <= k && k <= 32
}

// The sizes of the short code.
#[tactic(auto, using(crate::proofs::SmallSizes::short_facts), unfolding(crate::specs::Measures::short_sizes))]
pub fn sizes(n: usize, k: usize, s: usize) -> Sizes
    requires { short_fits n k s ≡ true }
    ensures { result ≡ short_sizes n k s }
{
    let symbols = n - 1;
    let message = symbols * s;
    Sizes {
        symbols,
        message,
        store: k * message,
        key: k - 1,
        query: k,
        slot: s,
    }
}
