// Keys, drawn from a number.
use catalogue::{Catalogue, Code};
use trial_bytes::draw;

// Draws a key of the catalogue's code, and more of the same behind it: for the seed 0, zeros or permutations that leave all in place.
pub fn key(seed: u64, c: Catalogue, out: &mut [u8]) {
    let Ok(sizes) = catalogue::sizes(c) else {
        return;
    };
    let code = c.code;
    match code {
        Code::Short | Code::Turn => draw::digits(seed, c.servers, out),
        Code::Even => draw::permutations(seed, sizes.symbols, out),
        Code::Round => draw::permutations(seed, sizes.key, out),
    }
}
