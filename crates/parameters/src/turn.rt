// The turning code's sizes; its bounds are the short code's.
ghost use Rattle.std.specs.Prelude.{◌≡◌, true};
ghost use Rattle.parameters.specs.Bounds.{short_fits};
ghost use Rattle.parameters.specs.Measures.{turn_sizes};

use crate::Sizes;

// The sizes of the turning code.
#[tactic(auto, unfolding(crate::specs::Measures::turn_sizes))]
pub fn sizes(n: usize, k: usize, s: usize) -> Sizes
    requires { short_fits n k s ≡ true }
    ensures { result ≡ turn_sizes n k s }
{
    let short = crate::short::sizes(n, k, s);
    Sizes { key: k, ..short }
}
