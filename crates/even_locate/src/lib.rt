// Where a query of the even code names a symbol: the rows are gone over set by set, in the order of the layout, until one has it.
#![tactic(auto)]

ghost use Rattle.std.specs.Prelude.{◌≡◌, true, ◌*◌, ◌^◌, ◌≤◌, ◌<◌, length, replicate};
ghost use mathlib.Core.List.{zip};
ghost use Rattle.std.specs.Int.Count.{ones};
ghost use Rattle.parameters.specs.Bounds.{even_fits};
ghost use Rattle.parameters.specs.Measures.{even_sizes};
ghost use Rattle.scheme.specs.Asked.{is_cell, named_in, place_naming};
ghost use Rattle.even_places.specs.Rule.{ones_in, members};
ghost use Rattle.even_sets.specs.Sets.{set_in};
ghost use Rattle.even_scheme.specs.Asked.{set_rows, layout_rows};

// Whether a message and the number of its symbol are those that are looked for.
fn is_cell(p: usize, number: usize, message: usize, symbol: usize) -> bool
    ensures { result ≡ is_cell message symbol (p, number) }
{
    p == message && number == symbol
}

// Whether a row of the set, whose numbers are the first of `numbers`, names the symbol.
fn row_names(k: usize, set: u8, message: usize, symbol: usize, numbers: &[u8]) -> bool
    requires { length (members 0 (set_in k set)) ≤ length numbers.now }
    ensures { result ≡ named_in message symbol (zip (members 0 (set_in k set)) numbers.now) }
{
    let mut rest = set;
    let mut taken = 0;
    for p in 0..k {
        if rest % 2 == 1 {
            if is_cell(p, numbers[taken] as usize, message, symbol) {
                return true;
            }
            taken += 1;
        }
        rest /= 2;
    }
    false
}

// Where the first of `rows` rows of the set is answered that names the symbol, among the answers to these rows. Seven parameters: no two of them
// travel together to a third function.
fn set_place(
    k: usize,
    s: usize,
    set: u8,
    rows: usize,
    message: usize,
    symbol: usize,
    numbers: &[u8],
) -> Option<usize>
    requires set_value { (ones_in (set_in k set) ≡ ones set) × (rows * ones set ≤ length numbers.now) }
    requires s_bound { rows * s < 2 ^ 64 }
    ensures { result ≡ place_naming s message symbol (set_rows (replicate rows (set_in k set)) numbers.now) }
{
    let size = u8::count_ones(set) as usize;
    for row in 0..rows {
        let at = row * size;
        if row_names(k, set, message, symbol, &numbers[at..]) {
            return Some(row * s);
        }
    }
    None
}

// Where the query names a symbol of a message: the answer to the row that does begins there. One pass over the query, which ends where the symbol is found.
pub fn locate(
    n: usize,
    k: usize,
    s: usize,
    query: &[u8],
    message: usize,
    symbol: usize,
) -> Option<usize>
    requires s_value { even_fits n k s ≡ true }
    requires query_len { length query.now ≡ (even_sizes n k s).query }
    ensures { result ≡ place_naming s message symbol (layout_rows n k query.now) }
{
    let sets = even_sets::ordered_sets(k);
    let count = parameters::power(2, k) - 1;
    let mut at = 0;
    let mut end = 0;
    for set in &sets[..count] {
        let rows = even_sets::rows_of(n, *set);
        if let Some(place) = set_place(k, s, *set, rows, message, symbol, &query[at..]) {
            return Some(end + place);
        }
        at += rows * u8::count_ones(*set) as usize;
        end += rows * s;
    }
    None
}
