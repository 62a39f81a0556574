// A server's query of the even code (source 003, section IV-B): its places, row by row in one pass over the sets, and the key's entries
// for them.
#![tactic(auto)]

use even_ranks::Origin;

mod origins;

ghost use Rattle.std.specs.Prelude.{◌≡◌, map, ◌+◌, ◌-◌, ◌*◌, ◌^◌, ◌≤◌, ◌<◌, length};
ghost use Rattle.lists.specs.Below.{Below};
ghost use Rattle.lists.specs.Padded.{padded};
ghost use Rattle.lists.specs.Parts.{put};
ghost use Rattle.even_places.specs.Rule.{byte_of, members, query_cells, all_sets};
ghost use Rattle.even_scheme.specs.Even.{even_query};
ghost use Rattle.even_sets.specs.Sets.{set_in};
ghost use Rattle.even_ranks.specs.Counts.{Stands, no_counts};
ghost use Rattle.even_ranks.specs.Walk.{place_among, origin_place, set_places, sets_places};
ghost use Rattle.even_query.specs.Query.{Asks, Tables, OriginWithin, Keyed, entries};

// A server's query of one message, and the tables that its places follow from.
#[derive(Clone, Copy)]
struct Walk<'a> {
    // How many servers there are.
    servers: usize,
    // How many messages there are.
    messages: usize,
    // The wanted message.
    wanted: usize,
    // The server that is asked.
    server: usize,
    // The counts of all sets.
    totals: &'a [usize],
    // How many places of each message each server takes in the blocks before each.
    taken: &'a [usize],
    ghost asks: { Asks servers messages wanted server },
    ghost tables: { Tables servers wanted totals.now taken.now },
}

impl Walk<'_> {
    // The place of message p in a row of one block, by whose turn it is, its set's rank and its number in the set. Six numbers, and no struct: an
    // `Origin` has two blocks and two turns, and a place goes by one of each.
    fn place_in(
        &self,
        block: usize,
        p: usize,
        rows: usize,
        turn: usize,
        rank: usize,
        number: usize,
    ) -> usize
        requires { (block < 8) × (p < 8) × (1 ≤ rows)
            × (place_among self.now.servers self.now.wanted self.now.totals.now block p rows turn rank number < 256) }
        ensures { result ≡ place_among self.now.servers self.now.wanted self.now.totals.now block p rows turn rank number }
    {
        self.servers * self.taken[block * 8 + p]
            + rows * (turn * even_ranks::takers(self.wanted, self.totals, block, p) + rank)
            + number
    }

    // The place of message p in a row, by its set's ranks.
    fn place(&self, ranks: &[usize], o: Origin, p: usize) -> usize
        requires { OriginWithin o × (p < 8) × (p < length ranks.now)
            × (origin_place self.now.servers self.now.wanted self.now.totals.now ranks.now o p < 256) }
        ensures { result ≡ origin_place self.now.servers self.now.wanted self.now.totals.now ranks.now o p }
    {
        if p == self.wanted {
            return self.place_in(o.block, p, o.rows, o.turn, ranks[p], o.number);
        }
        self.place_in(o.source, p, o.rows, o.server, ranks[p], o.number)
    }

    // Writes the places of a row from `at` on, and gives where they end.
    fn write_row(&self, ranks: &[usize], o: Origin, set: u8, out: &mut [u8], at: usize) -> usize
        requires { OriginWithin o × (length ranks.now ≡ self.now.messages)
            × Below 256 (map (origin_place self.now.servers self.now.wanted self.now.totals.now ranks.now o) (members 0 (set_in self.now.messages set)))
            × (at + length (members 0 (set_in self.now.messages set)) ≤ length out.old) }
        ensures { (result ≡ at + length (members 0 (set_in self.now.messages set)))
            × (out.new ≡ put at (map (origin_place self.now.servers self.now.wanted self.now.totals.now ranks.now o)
            (members 0 (set_in self.now.messages set))) out.old) }
    {
        let mut rest = set;
        let mut end = at;
        for p in 0..self.messages {
            if rest % 2 == 1 {
                out[end] = self.place(ranks, o, p) as u8;
                end += 1;
            }
            rest /= 2;
        }
        end
    }

    // Writes the places of all rows of a set from `at` on, and gives where they end.
    fn write_set(&self, ranks: &[usize], set: u8, out: &mut [u8], at: usize) -> usize
        requires { Stands self.now.messages set × (length ranks.now ≡ self.now.messages)
            × Below 256 (set_places self.now.servers self.now.wanted self.now.server self.now.totals.now ranks.now (set_in self.now.messages set))
            × (at + length (set_places self.now.servers self.now.wanted self.now.server self.now.totals.now ranks.now (set_in self.now.messages set))
            ≤ length out.old) }
        ensures { (result
            ≡ at + length (set_places self.now.servers self.now.wanted self.now.server self.now.totals.now ranks.now (set_in self.now.messages set)))
            × (out.new ≡ put at (set_places self.now.servers self.now.wanted self.now.server self.now.totals.now ranks.now
            (set_in self.now.messages set)) out.old) }
    {
        let ones = u8::count_ones(set) as usize;
        let joins = origins::is_joined(self.wanted, set);
        let rows = even_sets::rows_of(self.servers, set);
        let mut end = at;
        for i in 0..rows {
            let o = origins::origin(self.servers, self.server, joins, ones, i);
            end = self.write_row(ranks, o, set, out, end);
        }
        end
    }

    // Writes the places of all rows of the sets, which are given in order; each set is counted once its rows are written.
    fn write_sets(&self, sets: &[u8], out: &mut [u8])
        requires { (sets.now ≡ map byte_of (all_sets self.now.messages))
            × Below 256 (sets_places self.now.servers self.now.wanted self.now.server self.now.totals.now no_counts (all_sets self.now.messages))
            × (length (sets_places self.now.servers self.now.wanted self.now.server self.now.totals.now no_counts (all_sets self.now.messages))
            ≤ length out.old) }
        ensures { out.new
            ≡ put 0 (sets_places self.now.servers self.now.wanted self.now.server self.now.totals.now no_counts (all_sets self.now.messages)) out.old }
    {
        let mut counts = [0usize; 128];
        let mut end = 0;
        for &set in sets {
            let at = even_ranks::counters_of(self.wanted, set);
            end = self.write_set(&counts[at..at + self.messages], set, out, end);
            even_ranks::count_set(self.messages, self.wanted, set, &mut counts);
        }
    }
}

// The places of a server's query, in order.
pub fn places(n: usize, k: usize, wanted: usize, server: usize) -> [u8; 1024]
    requires { Asks n k wanted server }
    ensures { result ≡ padded 1024 (map (λ cell. cell.1) (query_cells n k wanted server)) }
{
    let table = even_sets::ordered_sets(k);
    let count = parameters::power(2, k) - 1;
    let sets = &table[..count];
    let totals = even_ranks::totals(k, wanted, sets);
    let taken = even_ranks::takings(n, wanted, &totals);
    let mut out = [0u8; 1024];
    let walk = Walk {
        servers: n,
        messages: k,
        wanted,
        server,
        totals: &totals,
        taken: &taken,
    };
    walk.write_sets(sets, &mut out);
    out
}

// Writes the key's entries for messages and their places.
fn look_up(symbols: usize, key: &[u8], messages: &[u8], places: &[u8], out: &mut [u8])
    requires { Keyed symbols key.now messages.now places.now × (length places.now ≤ length out.old) }
    ensures { out.new ≡ put 0 (entries symbols key.now messages.now places.now) out.old }
{
    for (i, place) in places.iter().enumerate() {
        let p = messages[i] as usize;
        out[i] = key[p * symbols + *place as usize];
    }
}

// Writes a server's query for the wanted message with a key.
pub fn query(n: usize, k: usize, wanted: usize, server: usize, key: &[u8], out: &mut [u8])
    requires { Asks n k wanted server × (length key.now ≡ k * n ^ k) × (k * n ^ (k - 1) ≤ length out.old) }
    ensures { out.new ≡ put 0 (even_query n k wanted server key.now) out.old }
{
    let messages = even_layout::positions(n, k);
    let places = places(n, k, wanted, server);
    let count = k * parameters::power(n, k - 1);
    look_up(
        parameters::power(n, k),
        key,
        &messages[..count],
        &places[..count],
        out,
    );
}
