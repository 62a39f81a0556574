// The even code's bounds and sizes; the greatest K is looked up by N.
ghost use Rattle.std.specs.Prelude.{◌≡◌, true};
ghost use Rattle.parameters.specs.Bounds.{even_fits};
ghost use Rattle.parameters.specs.Measures.{even_sizes};

use crate::Sizes;

// The greatest K of the even code for each N from 2 to 16 (01: largest K).
const MOST_MESSAGES: [usize; 15] = [8, 5, 4, 3, 3, 2, 2, 2, 2, 2, 2, 2, 2, 2, 2];

// Whether N, K and S are within the bounds of the even code.
pub fn fits(n: usize, k: usize, s: usize) -> bool
    ensures { result ≡ even_fits n k s }
{
    crate::table_fits(&MOST_MESSAGES, n, k, s)
}

// The sizes of the even code.
#[tactic(auto, using(crate::proofs::SmallSizes::even_facts), unfolding(crate::specs::Measures::even_sizes, crate::specs::Measures::even_rows))]
pub fn sizes(n: usize, k: usize, s: usize) -> Sizes
    requires { even_fits n k s ≡ true }
    ensures { result ≡ even_sizes n k s }
{
    let symbols = crate::power(n, k);
    let share = crate::power(n, k - 1);
    let rows = share + (share - 1) / (n - 1);
    let message = symbols * s;
    Sizes {
        symbols,
        message,
        store: k * message,
        key: k * symbols,
        query: k * share,
        slot: rows * s,
    }
}
