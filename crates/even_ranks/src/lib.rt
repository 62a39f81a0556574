// The sets of an even query counted, and the places that follow from the counts without search.
// A set of messages is one byte, bit p for message p. Counts stand in flat arrays of fixed size, no heap, at the places that the definitions
// give them (`counter`).
#![tactic(auto)]

ghost use Rattle.std.specs.Prelude.{◌≡◌, map, ◌-◌, ◌%◌, ◌/◌, ◌^◌, ◌≤◌, ◌<◌, eqb, length};
ghost use Rattle.std.specs.Int.Count.{ones};
ghost use Rattle.lists.specs.Below.{Below};
ghost use Rattle.even_places.specs.Rule.{byte_of, after, all_sets};
ghost use Rattle.even_sets.specs.Sets.{set_in};
ghost use Rattle.even_ranks.specs.Counts.{«counter» as counterAt, Stands, set_counted, totals_of, «takers» as takersOf, taken, taken_table};

// Where the places of a row come from.
#[derive(Clone, Copy)]
pub struct Origin {
    // The row's own block: the wanted message's place is of this block.
    pub block: usize,
    // The block that the other messages' places are of: the one before, if the row is joined.
    pub source: usize,
    // The rows that a turn has for each set.
    pub rows: usize,
    // Whose turn it is, of those that take places of the wanted message in its block.
    pub turn: usize,
    // The server whose turn took the other messages' places.
    pub server: usize,
    // The row's number among those of its set in that turn.
    pub number: usize,
}

// Where the counters of a set's block and kind begin: 64 further on if it has the wanted message.
pub fn counters_of(wanted: usize, set: u8) -> usize
    requires { (wanted < 8) × (1 ≤ ones set) }
    ensures { result ≡ counterAt (eqb (set / 2 ^ wanted % 2) 1) (ones set - 1) 0 }
{
    let block = u8::count_ones(set) as usize - 1;
    if (set >> wanted) % 2 == 1 {
        return 64 + block * 8;
    }
    block * 8
}

// Adds one to the counter of each message in the set, where `counts` are the counters of its block and kind, one for each message.
fn count_members(set: u8, counts: &mut [usize])
    requires { Below 65536 counts.old }
    ensures { counts.new ≡ after (set_in (length counts.old) set) counts.old }
{
    let mut rest = set;
    for count in counts.iter_mut() {
        *count += (rest % 2) as usize;
        rest /= 2;
    }
}

// Counts a set.
pub fn count_set(k: usize, wanted: usize, set: u8, counts: &mut [usize])
    requires { (k ≤ 8) × (wanted < k) × Stands k set × (length counts.old ≡ 128) × Below 65536 counts.old }
    ensures { counts.new ≡ set_counted wanted (set_in k set) counts.old }
{
    let at = counters_of(wanted, set);
    count_members(set, &mut counts[at..at + k]);
}

// The counts of all sets, which are given in order.
pub fn totals(k: usize, wanted: usize, sets: &[u8]) -> [usize; 128]
    requires { (k ≤ 8) × (wanted < k) × (sets.now ≡ map byte_of (all_sets k)) }
    ensures { result ≡ totals_of k wanted }
{
    let mut counts = [0usize; 128];
    for set in sets {
        count_set(k, wanted, *set, &mut counts);
    }
    counts
}

// How many sets of a block have rows that take a next place of message p.
pub fn takers(wanted: usize, totals: &[usize], block: usize, p: usize) -> usize
    requires { (block < 8) × (p < 8) × (length totals.now ≡ 128) }
    ensures { result ≡ takersOf wanted totals.now block p }
{
    if p == wanted {
        return totals[64 + block * 8 + p];
    }
    totals[block * 8 + p]
}

// How many places of message p each server takes in the blocks before one.
fn taken_before(n: usize, wanted: usize, totals: &[usize], block: usize, p: usize) -> usize
    requires { (1 ≤ n) × (n ≤ 16) × (block < 8) × (p < 8) × (length totals.now ≡ 128) × Below 65536 totals.now }
    ensures { result ≡ taken n wanted totals.now block p }
{
    let mut sum = 0;
    let mut rows = 1;
    for j in 0..block {
        sum += rows * takers(wanted, totals, j, p);
        rows *= n - 1;
    }
    sum
}

// The same for every block and message.
pub fn takings(n: usize, wanted: usize, totals: &[usize]) -> [usize; 64]
    requires { (1 ≤ n) × (n ≤ 16) × (length totals.now ≡ 128) × Below 65536 totals.now }
    ensures { result ≡ taken_table n wanted totals.now }
{
    let mut table = [0usize; 64];
    for (i, entry) in table.iter_mut().enumerate() {
        *entry = taken_before(n, wanted, totals, i / 8, i % 8);
    }
    table
}
