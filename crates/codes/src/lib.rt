// The code of a catalogue: each call goes to the code that the catalogue names. Its contracts speak of the catalogue's scheme alone.
#![tactic(auto)]

ghost use Rattle.std.specs.Prelude.{◌≡◌, true, ◌*◌, ◌≤◌, ◌<◌, length};
ghost use Rattle.lists.specs.Parts.{put, lay};
ghost use Rattle.catalogue.specs.Catalogue.{Admitted};
ghost use Rattle.scheme.specs.Scheme.{Valid, recover_in};
ghost use Rattle.scheme.specs.Asked.{place_naming};
ghost use Rattle.codes.specs.Codes.{scheme_of};
ghost use Rattle.codes.specs.Asked.{rows_of};

use catalogue::{Catalogue, Code};

// Whether a key of the right length has only entries that it may have.
pub fn key_good(c: Catalogue, key: &[u8]) -> bool
    requires admitted { Admitted c }
    requires key_len { length key.now ≡ (scheme_of c).sizes.key }
    ensures { result ≡ (scheme_of c).key_good key.now }
{
    match c.code {
        Code::Short => short_code::key_good(c.servers, key),
        Code::Even => even_key::key_good(c.servers, c.messages, key),
        Code::Turn => short_code::key_good(c.servers, key),
        Code::Round => permutation::is_permutation(key.len(), key),
    }
}

// Writes a server's query for the wanted message at the start of `out`.
pub fn query(c: Catalogue, wanted: usize, server: usize, key: &[u8], out: &mut [u8])
    requires admitted { Admitted c }
    requires wanted_lt_messages { (wanted < c.messages) × (server < c.servers) }
    requires valid { Valid (scheme_of c) key.now }
    requires c_in_bounds { (scheme_of c).sizes.query ≤ length out.old }
    ensures { out.new ≡ put 0 ((scheme_of c).query wanted server key.now) out.old }
{
    match c.code {
        Code::Short => short_code::query(c.servers, wanted, server, key, out),
        Code::Even => even_query::query(c.servers, c.messages, wanted, server, key, out),
        Code::Turn => turn_code::query(c.servers, wanted, server, key, out),
        Code::Round => round_code::query(c.servers, c.messages, wanted, server, key, out),
    }
}

// Whether a server admits the query, of any bytes and length.
pub fn admits(c: Catalogue, server: usize, query: &[u8]) -> bool
    requires { Admitted c }
    ensures { result ≡ (scheme_of c).admits server query.now }
{
    match c.code {
        Code::Short => short_code::admits(c.servers, c.messages, server, query),
        Code::Even => even_admission::admits(c.servers, c.messages, server, query),
        Code::Turn => turn_code::admits(c.servers, c.messages, query),
        Code::Round => round_code::admits(c.servers, c.messages, server, query),
    }
}

// The bytes of an answer slot.
fn slot(c: Catalogue) -> usize
    requires { Admitted c }
    ensures { result ≡ (scheme_of c).sizes.slot }
{
    let sizes = catalogue::sizes(c).unwrap();
    sizes.slot
}

// The bytes that the query calls for.
pub fn answer_length(c: Catalogue, query: &[u8]) -> usize
    requires { Admitted c }
    ensures { result ≡ (scheme_of c).answer_length query.now }
{
    match c.code {
        Code::Short => short_code::answer_length(c.symbol, query),
        Code::Even => slot(c),
        Code::Turn => short_code::answer_length(c.symbol, query),
        Code::Round => round_code::answer_length(c.servers, c.messages, c.symbol, query),
    }
}

// The bytes that a server's query for the wanted message calls for, without making the query.
pub fn expected_length(c: Catalogue, wanted: usize, server: usize, key: &[u8]) -> usize
    requires admitted { Admitted c }
    requires wanted_lt_messages { (wanted < c.messages) × (server < c.servers) }
    requires valid { Valid (scheme_of c) key.now }
    ensures { result ≡ (scheme_of c).answer_length ((scheme_of c).query wanted server key.now) }
{
    match c.code {
        Code::Short => short_code::expected_length(c.servers, c.symbol, wanted, server, key),
        Code::Even => slot(c),
        Code::Turn => turn_code::expected_length(c.servers, c.symbol, wanted, server, key),
        Code::Round => round_code::expected_length(
            c.servers, c.messages, c.symbol, wanted, server, key,
        ),
    }
}

// Writes the answer to a query that `server` admits at the start of `out`.
pub fn answer(c: Catalogue, server: usize, store: &[u8], query: &[u8], out: &mut [u8])
    requires admitted { Admitted c }
    requires query_value { (scheme_of c).admits server query.now ≡ true }
    requires store_len { length store.now ≡ (scheme_of c).sizes.store }
    requires query_in_bounds { (scheme_of c).answer_length query.now ≤ length out.old }
    ensures { out.new ≡ put 0 ((scheme_of c).answer store.now query.now) out.old }
{
    let op = c.sum;
    match c.code {
        Code::Short => short_code::answer(op, c.servers, c.messages, c.symbol, store, query, out),
        Code::Even => even_answer::answer(op, c.servers, c.messages, c.symbol, store, query, out),
        Code::Turn => short_code::answer(op, c.servers, c.messages, c.symbol, store, query, out),
        Code::Round => round_code::answer(op, c.servers, c.messages, c.symbol, store, query, out),
    }
}

// Where the answer to the row begins that names a symbol of a message, if a row of the query does, which `server` admits.
pub fn locate(
    c: Catalogue,
    server: usize,
    query: &[u8],
    message: usize,
    symbol: usize,
) -> Option<usize>
    requires admitted { Admitted c }
    requires query_value { (scheme_of c).admits server query.now ≡ true }
    requires message_lt_messages { (message < c.messages) × (symbol < (scheme_of c).sizes.symbols) }
    ensures { result ≡ place_naming c.symbol message symbol (rows_of c query.now) }
{
    match c.code {
        Code::Short => short_code::locate(c.symbol, query, message, symbol),
        Code::Even => even_locate::locate(c.servers, c.messages, c.symbol, query, message, symbol),
        Code::Turn => short_code::locate(c.symbol, query, message, symbol),
        Code::Round => round_code::locate(c.servers, c.messages, c.symbol, query, message, symbol),
    }
}

// Writes as much of the wanted message as `message` has room for, from its start, from the answers in the slots of `answers`.
pub fn recover(c: Catalogue, wanted: usize, key: &[u8], answers: &[u8], message: &mut [u8])
    requires admitted { Admitted c }
    requires wanted_lt_messages { wanted < c.messages }
    requires valid { Valid (scheme_of c) key.now }
    requires c_in_bounds { c.servers * (scheme_of c).sizes.slot ≤ length answers.now }
    ensures { message.new
        ≡ lay 0 (recover_in (scheme_of c) c.servers wanted key.now answers.now) message.old }
{
    match c.code {
        Code::Short => short_code::recover(
            c.sum, c.servers, c.messages, c.symbol, wanted, key, answers, message,
        ),
        Code::Even => even_recover::recover(
            c.sum, c.servers, c.messages, c.symbol, wanted, key, answers, message,
        ),
        Code::Turn => turn_code::recover(
            c.sum, c.servers, c.messages, c.symbol, wanted, key, answers, message,
        ),
        Code::Round => round_code::recover(
            c.sum, c.servers, c.messages, c.symbol, wanted, key, answers, message,
        ),
    }
}
