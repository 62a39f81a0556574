// The key check of the even code: whether a key of the right length is K permutations of the numbers below N^K.
#![tactic(auto)]

ghost use Rattle.std.specs.Prelude.{◌≡◌, ◌*◌, ◌^◌, length};
ghost use Rattle.lists.specs.Distinct.{is_permutation};
ghost use Rattle.lists.specs.Parts.{cut};
ghost use Rattle.lists.specs.Ranges.{every};
ghost use Rattle.even_scheme.specs.Even.{even_key_good};

// Whether each of the key's k parts is a permutation.
fn permutations_good(size: usize, k: usize, key: &[u8]) -> bool
    requires { length key.now ≡ k * size }
    ensures { result ≡ every k (λ p. is_permutation size (cut (p * size) size key.now)) }
{
    for p in 0..k {
        if !permutation::is_permutation(size, &key[p * size..p * size + size]) {
            return false;
        }
    }
    true
}

// Whether a key of the right length is good (no refusal 6).
pub fn key_good(n: usize, k: usize, key: &[u8]) -> bool
    requires { length key.now ≡ k * n ^ k }
    ensures { result ≡ even_key_good n k key.now }
{
    permutations_good(parameters::power(n, k), k, key)
}
