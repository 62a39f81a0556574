// Which queries a server admits in the even code (document 01, 'Even code').
#![tactic(auto)]

ghost use Rattle.std.specs.Prelude.{◌≡◌, ◌&&◌, ◌≤◌, length};
ghost use mathlib.Core.List.{zip_with};
ghost use Rattle.lists.specs.Below.{all_below, Below};
ghost use Rattle.lists.specs.Distinct.{distinct};
ghost use Rattle.even_scheme.specs.Even.{even_admits};
ghost use Rattle.even_sets.specs.Sets.{LayoutBounds};
ghost use Rattle.even_admission.specs.Cells.{cell_of};

// Whether the numbers are below `size`, none twice for the same message; message p's number x is marked at p × `size` + x.
fn all_fresh(size: usize, messages: &[u8], numbers: &[u8]) -> bool
    requires { (size ≤ 256) × (length messages.now ≡ length numbers.now) × Below 8 messages.now }
    ensures { result ≡ all_below size numbers.now && distinct (zip_with (cell_of size) messages.now numbers.now) }
{
    let mut marks = [false; 2048];
    for (message, number) in messages.iter().zip(numbers) {
        let number = *number as usize;
        if size <= number {
            return false;
        }
        let cell = *message as usize * size + number;
        if marks[cell] {
            return false;
        }
        marks[cell] = true;
    }
    true
}

// Whether a server admits the query, which is the same at every server.
pub fn admits(n: usize, k: usize, server: usize, query: &[u8]) -> bool
    requires { LayoutBounds n k }
    ensures { result ≡ even_admits n k server query.now }
{
    if query.len() != k * parameters::power(n, k - 1) {
        return false;
    }
    let messages = even_layout::positions(n, k);
    all_fresh(parameters::power(n, k), &messages[..query.len()], query)
}
