// Recovery of the even code (01: 'Even code', recovery): the wanted message from the answers of all servers. N, K and S stay parameters of `recover`:
// its clauses name them one by one, as the papers' formulas do.
#![tactic(auto)]

ghost use Rattle.std.specs.Prelude.{◌≡◌, true, map, ◌*◌, ◌/◌, ◌%◌, ◌^◌, ◌≤◌, ◌<◌, length};
ghost use Rattle.lists.specs.Parts.{lay};
ghost use Rattle.lists.specs.Assembled.{lay_all};
ghost use Rattle.symbol.specs.Operations.{sum_of};
ghost use Rattle.parameters.specs.Bounds.{even_fits};
ghost use Rattle.parameters.specs.Measures.{even_rows, even_sizes};
ghost use Rattle.scheme.specs.Scheme.{Valid, answers_in, recover_in};
ghost use Rattle.even_places.specs.Rule.{byte_of, all_sets};
ghost use Rattle.even_scheme.specs.Even.{server_parts, even_scheme};
ghost use Rattle.even_layout.specs.Layout.{first_rows};
ghost use Rattle.even_recover.specs.Rows.{server_rows_of, group_parts, group_of, set_parts, Given, Held, Grouped, Named, Ready};

use symbol::Operation;

// One row of a query.
mod rows;

// What is the same for all rows of one server's query.
#[derive(Clone, Copy)]
struct ServerRows {
    // How many servers there are.
    servers: usize,
    // Bytes of a symbol.
    symbol: usize,
    // Rows of a query.
    rows: usize,
    // The wanted message's bit in the byte of a set.
    bit: u8,
    // The server.
    server: usize,
}

// The rows of one set with the wanted message.
#[derive(Clone, Copy)]
struct Group {
    // Messages in the set.
    messages: usize,
    // Rows of the set.
    count: usize,
    // The first of them.
    first: usize,
    // The first row of the set without the wanted message.
    source: usize,
    // How many of the rows are joined from those of each other server.
    each: usize,
    // The wanted message's position in the query, in the first row.
    cell: usize,
}

// What the rows of one server's query are recovered from.
#[derive(Clone, Copy)]
struct Answered<'a> {
    // How symbols are combined.
    op: Operation,
    // What is the same for all rows.
    here: ServerRows,
    // The first row of each set, at the set's byte.
    firsts: &'a [usize],
    // The server's query.
    query: &'a [u8],
    // The slots of all servers.
    answers: &'a [u8],
    ghost held: { Held here answers.now },
}

// The group of a set with the wanted message, whose first row starts at position `cell` of the query.
fn group_of(here: ServerRows, set: u8, cell: usize, firsts: &[usize]) -> Group
    requires { Given here set cell firsts.now }
    ensures { result ≡ group_of here set cell firsts.now }
{
    let count = even_sets::rows_of(here.servers, set);
    Group {
        messages: u8::count_ones(set) as usize,
        count,
        first: firsts[set as usize],
        source: firsts[(set - here.bit) as usize],
        each: count / (here.servers - 1),
        cell: cell + u8::count_ones(set % here.bit) as usize,
    }
}

impl Answered<'_> {
    // Recovers the symbols of the group's rows, in order.
    fn from_group(&self, group: Group, message: &mut [u8])
        requires grouped { Grouped self.now.here group }
        requires named { Named group self.now.query.now }
        ensures { message.new
            ≡ lay_all (group_parts (sum_of self.now.op) self.now.here group self.now.query.now self.now.answers.now) message.old }
    {
        let mut cell = group.cell;
        for i in 0..group.count {
            let number = self.query[cell] as usize;
            self.from_row(group, i, number, message);
            cell += group.messages;
        }
    }

    // Recovers the symbols of the rows of a set, whose first row starts at position `cell` of the query, if it has the wanted message.
    fn from_set(&self, set: u8, cell: usize, message: &mut [u8])
        requires le_bit { 1 ≤ self.now.here.bit }
        requires ready { set / self.now.here.bit % 2 ≡ 1 → Ready self.now.here set cell self.now.firsts.now self.now.query.now }
        ensures { message.new
            ≡ lay_all (set_parts (sum_of self.now.op) self.now.here set cell self.now.firsts.now self.now.query.now self.now.answers.now) message.old }
    {
        if set / self.here.bit % 2 == 1 {
            self.from_group(group_of(self.here, set, cell, self.firsts), message);
        }
    }
}

// What a message is recovered from.
#[derive(Clone, Copy)]
struct Fetch<'a> {
    // How symbols are combined.
    op: Operation,
    // How many servers there are.
    servers: usize,
    // How many messages there are.
    messages: usize,
    // Bytes of a symbol.
    symbol: usize,
    // The wanted message.
    wanted: usize,
    // The key that the queries were made with.
    key: &'a [u8],
    // All sets of messages, in order.
    sets: &'a [u8],
    // The first row of each set, at the set's byte.
    firsts: &'a [usize],
    // The slots of all servers.
    answers: &'a [u8],
    ghost fits: { even_fits servers messages symbol ≡ true },
    ghost known: { wanted < messages },
    ghost long: { length key.now ≡ messages * servers ^ messages },
    ghost ordered: { sets.now ≡ map byte_of (all_sets messages) },
    ghost table: { firsts.now ≡ first_rows servers messages },
    ghost slots: { servers * (even_rows servers messages * symbol) ≤ length answers.now },
}

impl Fetch<'_> {
    // What is the same for all rows of a server's query.
    fn server_rows_of(&self, server: usize) -> ServerRows
        ensures { result ≡ server_rows_of self.now.servers self.now.messages self.now.symbol self.now.wanted server }
    {
        let whole = parameters::power(self.servers, self.messages - 1);
        ServerRows {
            servers: self.servers,
            symbol: self.symbol,
            rows: whole + (whole - 1) / (self.servers - 1),
            bit: parameters::power(2, self.wanted) as u8,
            server,
        }
    }

    // Recovers the symbols of the rows with the wanted message of one server's query.
    fn from_server(&self, server: usize, message: &mut [u8])
        requires { server < self.now.servers }
        ensures { message.new
            ≡ lay_all (server_parts (sum_of self.now.op) self.now.servers self.now.messages self.now.symbol self.now.wanted self.now.key.now
            (answers_in (even_scheme (sum_of self.now.op) self.now.servers self.now.messages self.now.symbol) self.now.servers self.now.wanted
            self.now.key.now self.now.answers.now) server) message.old }
    {
        let mut asked = [0u8; 1024];
        even_query::query(
            self.servers,
            self.messages,
            self.wanted,
            server,
            self.key,
            &mut asked,
        );
        let answered = Answered {
            op: self.op,
            here: self.server_rows_of(server),
            firsts: self.firsts,
            query: &asked,
            answers: self.answers,
        };
        let mut cell = 0;
        for &set in self.sets {
            answered.from_set(set, cell, message);
            cell += even_sets::rows_of(self.servers, set) * u8::count_ones(set) as usize;
        }
    }
}

// Recovers the wanted message from the slots of the answer buffer, and writes each symbol at its number, as far as `message` reaches.
pub fn recover(
    op: Operation,
    n: usize,
    k: usize,
    s: usize,
    wanted: usize,
    key: &[u8],
    answers: &[u8],
    message: &mut [u8],
)
    requires s_value { even_fits n k s ≡ true }
    requires wanted_lt_k { wanted < k }
    requires valid { Valid (even_scheme (sum_of op) n k s) key.now }
    requires s_in_bounds { n * (even_sizes n k s).slot ≤ length answers.now }
    ensures { message.new
        ≡ lay 0 (recover_in (even_scheme (sum_of op) n k s) n wanted key.now answers.now) message.old }
{
    let sets = even_sets::ordered_sets(k);
    let count = parameters::power(2, k) - 1;
    let firsts = even_layout::first_rows(n, k);
    let fetch = Fetch {
        op,
        servers: n,
        messages: k,
        symbol: s,
        wanted,
        key,
        sets: &sets[..count],
        firsts: &firsts,
        answers,
    };
    for server in 0..n {
        fetch.from_server(server, message);
    }
}
