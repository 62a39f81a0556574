// The round code's bounds and sizes (02, item 8); the greatest K is looked up by N.
ghost use Rattle.std.specs.Prelude.{◌≡◌, true};
ghost use Rattle.parameters.specs.Bounds.{round_fits};
ghost use Rattle.parameters.specs.Measures.{round_sizes};

use crate::Sizes;

// The greatest K of the round code for each N from 2 to 16.
const MOST_MESSAGES: [usize; 15] = [7, 4, 4, 3, 3, 3, 3, 2, 2, 2, 2, 2, 2, 2, 2];

// Whether N, K and S are within the bounds of the round code.
pub fn fits(n: usize, k: usize, s: usize) -> bool
    ensures { result ≡ round_fits n k s }
{
    crate::table_fits(&MOST_MESSAGES, n, k, s)
}

// The sizes of the round code.
#[tactic(auto, using(crate::proofs::SmallSizes::round_facts), unfolding(crate::specs::Measures::round_sizes))]
pub fn sizes(n: usize, k: usize, s: usize) -> Sizes
    requires { round_fits n k s ≡ true }
    ensures { result ≡ round_sizes n k s }
{
    let blocks = crate::power(n, k - 1);
    let message = blocks * ((n - 1) * s);
    Sizes {
        symbols: blocks * (n - 1),
        message,
        store: k * message,
        key: blocks,
        query: blocks * k,
        slot: blocks * s,
    }
}
