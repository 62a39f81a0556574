// The parameters of a code, N servers, K messages, symbols of S bytes: what they may be, and the sizes that follow from them. They stay parameters
// of their own in all codes: the clauses name N, K and S one by one, as the papers' formulas do.
// Each code has a module: `fits` tests its bounds, unless it has another code's, `sizes` gives its sizes. Here is what the codes share.
#![tactic(auto)]

ghost use Rattle.std.specs.Prelude.{◌≡◌, ◌&&◌, ◌^◌, ◌<◌};
ghost use Rattle.parameters.specs.Bounds.{servers_fit, symbol_fits};
ghost use Rattle.parameters.specs.Table.{table_fits};

pub mod even;
pub mod round;
pub mod short;
pub mod turn;

// Every length that a caller has to know (01: a pack's pieces, pack, store, key, request, slot).
#[derive(Clone, Copy)]
pub struct Sizes {
    // Symbols in a message.
    pub symbols: usize,
    // Bytes of a message's symbols together, padding included.
    pub message: usize,
    // Bytes of the store.
    pub store: usize,
    // Bytes of a key.
    pub key: usize,
    // Bytes of a query.
    pub query: usize,
    // Bytes of the longest answer.
    pub slot: usize,
}

// Whether N and S are within the bounds that the codes share.
fn common_fits(n: usize, s: usize) -> bool
    ensures { result ≡ servers_fit n && symbol_fits s }
{
    2 <= n && n <= 16 && 1 <= s && s <= 4096
}

// Whether N, K and S are within the bounds of a code whose greatest K is looked up by N, in a table for each N from 2 to 16.
fn table_fits(most_messages: &[usize; 15], n: usize, k: usize, s: usize) -> bool
    ensures { result ≡ table_fits most_messages.now n k s }
{
    common_fits(n, s) && 1 <= k && k <= most_messages[n - 2]
}

// A power that fits.
pub fn power(base: usize, exponent: usize) -> usize
    requires { base ^ exponent < 2 ^ 64 }
    ensures { result ≡ base ^ exponent }
{
    let mut result = 1;
    for _ in 0..exponent {
        result *= base;
    }
    result
}
