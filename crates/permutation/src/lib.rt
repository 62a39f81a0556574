// Permutations as bytes: whether a part of a key is one.
#![tactic(auto)]

ghost use Rattle.std.specs.Prelude.{◌≡◌, length};
ghost use Rattle.lists.specs.Distinct.{is_permutation};

// Whether the bytes, as many as the size, are every number below it: one pass that marks each number.
pub fn is_permutation(size: usize, bytes: &[u8]) -> bool
    requires { length bytes.now ≡ size }
    ensures { result ≡ is_permutation size bytes.now }
{
    let mut seen = [false; 256];
    for byte in bytes {
        let entry = *byte as usize;
        if size <= entry || seen[entry] {
            return false;
        }
        seen[entry] = true;
    }
    true
}
