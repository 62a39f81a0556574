// The layout of an even query, which every server knows from N and K: the message at each position, each set's first row, and the order of the
// other servers, from whose rows a row is joined. A set of messages is one byte, bit p for message p (document 01, 'Even code').
#![tactic(auto)]

ghost use Rattle.std.specs.Prelude.{◌≡◌, ℕ, ◌+◌, ◌-◌, ◌≤◌, ◌<◌, length, get_or, replicate};
ghost use mathlib.Core.List.{flat_map};
ghost use Rattle.lists.specs.Parts.{put};
ghost use Rattle.lists.specs.Padded.{padded};
ghost use Rattle.even_places.specs.Rule.{members, others, «positions»};
ghost use Rattle.even_sets.specs.Sets.{LayoutBounds, set_in};
ghost use Rattle.even_layout.specs.Layout.{first_rows};

// Writes the messages of a set, ascending, from `at` on, and gives where they end.
fn write_members(k: usize, set: u8, out: &mut [u8], at: usize) -> usize
    requires { (k ≤ 8) × (at + length (members 0 (set_in k set)) ≤ length out.old) }
    ensures { (result ≡ at + length (members 0 (set_in k set))) × (out.new ≡ put at (members 0 (set_in k set)) out.old) }
{
    let mut rest = set;
    let mut end = at;
    for p in 0..k {
        if rest % 2 == 1 {
            out[end] = p as u8;
            end += 1;
        }
        rest /= 2;
    }
    end
}

// Writes the messages of `count` rows of a set from `at` on, and gives where they end.
fn write_rows(k: usize, set: u8, count: usize, out: &mut [u8], at: usize) -> usize
    requires { (k ≤ 8) × (at + length (flat_map (members 0) (replicate count (set_in k set))) ≤ length out.old) }
    ensures { (result ≡ at + length (flat_map (members 0) (replicate count (set_in k set))))
        × (out.new ≡ put at (flat_map (members 0) (replicate count (set_in k set))) out.old) }
{
    let mut end = at;
    for _ in 0..count {
        end = write_members(k, set, out, end);
    }
    end
}

// The message at each position of a query.
pub fn positions(n: usize, k: usize) -> [u8; 1024]
    requires { LayoutBounds n k }
    ensures { result ≡ padded 1024 («positions» n k) }
{
    let sets = even_sets::ordered_sets(k);
    let count = parameters::power(2, k) - 1;
    let mut out = [0u8; 1024];
    let mut at = 0;
    for &set in &sets[..count] {
        at = write_rows(k, set, even_sets::rows_of(n, set), &mut out, at);
    }
    out
}

// The number of each set's first row in a query, at the set's byte.
pub fn first_rows(n: usize, k: usize) -> [usize; 256]
    requires { LayoutBounds n k }
    ensures { result ≡ first_rows n k }
{
    let sets = even_sets::ordered_sets(k);
    let count = parameters::power(2, k) - 1;
    let mut firsts = [0usize; 256];
    let mut row = 0;
    for &set in &sets[..count] {
        firsts[set as usize] = row;
        row += even_sets::rows_of(n, set);
    }
    firsts
}

// The server whose turn it is of those that are not `server`, ascending from turn 0.
pub fn other_server(server: usize, turn: usize) -> usize
    requires { turn < 16 }
    ensures { (n : ℕ) → server < n → turn < n - 1 → result ≡ get_or (others n server) turn 0 }
{
    if turn < server { turn } else { turn + 1 }
}
