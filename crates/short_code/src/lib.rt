// The short code of Tian, Sun and Chen: keys, queries, admission, answers and recovery, for n servers and k messages of n - 1
// symbols of s bytes. The rule is short_scheme/specs/Short.antt; rows are answered and recovered from in short_rows.
// N, K and S stay parameters of their own: the clauses name them one by one, as the papers' formulas do.
#![tactic(auto)]

ghost use Rattle.std.specs.Prelude.{◌≡◌, true, ◌*◌, ◌≤◌, ◌<◌, length, get_or};
ghost use Rattle.lists.specs.Parts.{put, lay};
ghost use Rattle.lists.specs.Below.{all_below};
ghost use Rattle.lists.specs.Inserts.{insert_at};
ghost use Rattle.parameters.specs.Bounds.{short_fits};
ghost use Rattle.parameters.specs.Measures.{short_sizes};
ghost use Rattle.symbol.specs.Operations.{sum_of};
ghost use Rattle.scheme.specs.Scheme.{Valid, recover_in};
ghost use Rattle.scheme.specs.Asked.{place_naming};
ghost use Rattle.short_scheme.specs.Short.{balancing, short_query, short_admits, short_answer_length, short_answer, short_scheme};
ghost use Rattle.short_scheme.specs.Rows.{DigitRow};
ghost use Rattle.short_scheme.specs.Asked.{digit_rows};

use short_rows::answering::Messages;
use short_rows::digits;
use short_rows::recovering::Received;
use symbol::Operation;

// The digit that makes the key's digits sum up to the server's number, modulo n.
fn balancing_digit(n: usize, server: usize, key: &[u8]) -> usize
    requires server_lt_n { server < n }
    requires key_value { all_below n key.now ≡ true }
    ensures { result ≡ balancing n server key.now }
{
    let sum = digits::digit_sum(n, key);
    digits::subtract_modulo(n, server, sum)
}

// Whether a key of the right length is valid: all its digits are below n.
pub fn key_good(n: usize, key: &[u8]) -> bool
    ensures { result ≡ all_below n key.now }
{
    digits::all_below(n, key)
}

// Digit p of the key with `digit` inserted at position `wanted`.
fn query_digit(wanted: usize, digit: u8, key: &[u8], p: usize) -> u8
    requires { (wanted ≤ length key.now) × (p ≤ length key.now) }
    ensures { result ≡ get_or (insert_at wanted digit key.now) p 0 }
{
    if p < wanted {
        return key[p];
    }
    if p == wanted {
        return digit;
    }
    key[p - 1]
}

// Writes the key with `digit` inserted at position `wanted`.
fn insert(wanted: usize, digit: u8, key: &[u8], out: &mut [u8])
    requires { (wanted ≤ length key.now) × (length key.now < length out.old) }
    ensures { out.new ≡ put 0 (insert_at wanted digit key.now) out.old }
{
    for p in 0..=key.len() {
        out[p] = query_digit(wanted, digit, key, p);
    }
}

// Writes the server's query for the wanted message.
pub fn query(n: usize, wanted: usize, server: usize, key: &[u8], out: &mut [u8])
    requires server_lt_n { (server < n) × (n ≤ 16) }
    requires key_value { all_below n key.now ≡ true }
    requires wanted_in_bounds { (wanted ≤ length key.now) × (length key.now < length out.old) }
    ensures { out.new ≡ put 0 (short_query n wanted server key.now) out.old }
{
    let digit = balancing_digit(n, server, key) as u8;
    insert(wanted, digit, key, out);
}

// Whether the server admits the query.
pub fn admits(n: usize, k: usize, server: usize, query: &[u8]) -> bool
    ensures { result ≡ short_admits n k server query.now }
{
    query.len() == k && digits::all_below(n, query) && digits::digit_sum(n, query) == server
}

// The bytes that the query calls for.
pub fn answer_length(s: usize, query: &[u8]) -> usize
    ensures { result ≡ short_answer_length s query.now }
{
    if digits::all_below(1, query) {
        return 0;
    }
    s
}

// Where a row, answered by symbols of s bytes, names a symbol of a message: at the start of its answer, if the message's digit does.
pub fn locate(s: usize, query: &[u8], message: usize, symbol: usize) -> Option<usize>
    requires message_in_bounds { message < length query.now }
    requires symbol_bound { symbol < 65536 }
    ensures { result ≡ place_naming s message symbol (digit_rows 0 query.now) }
{
    if query[message] as usize == symbol + 1 {
        return Some(0);
    }
    None
}

// The bytes that the server's query calls for, without the query: only server 0 can be asked for the row of zeros, by the key of zeros.
pub fn expected_length(n: usize, s: usize, wanted: usize, server: usize, key: &[u8]) -> usize
    requires { server < n }
    ensures { result ≡ short_answer_length s (short_query n wanted server key.now) }
{
    if server == 0 {
        return answer_length(s, key);
    }
    s
}

// Writes the answer to a row that a server admits: nothing for the row of zeros.
pub fn answer(
    op: Operation,
    n: usize,
    k: usize,
    s: usize,
    store: &[u8],
    query: &[u8],
    out: &mut [u8],
)
    requires s_value { short_fits n k s ≡ true }
    requires store_len { length store.now ≡ (short_sizes n k s).store }
    requires digit_row { DigitRow n k query.now }
    requires query_in_bounds { short_answer_length s query.now ≤ length out.old }
    ensures { out.new ≡ put 0 (short_answer (sum_of op) n s store.now query.now) out.old }
{
    let messages = Messages {
        op,
        first: 0,
        stride: n - 1,
        size: s,
    };
    messages.answer(store, query, out);
}

// Writes as much of the wanted message as `message` has room for, from the slots of the answer buffer. The key is enough: k and `wanted`
// say which fetch it is.
pub fn recover(
    op: Operation,
    n: usize,
    k: usize,
    s: usize,
    wanted: usize,
    key: &[u8],
    answers: &[u8],
    message: &mut [u8],
)
    requires s_value { short_fits n k s ≡ true }
    requires valid { Valid (short_scheme (sum_of op) n k s) key.now }
    requires s_in_bounds { n * (short_sizes n k s).slot ≤ length answers.now }
    ensures { message.new
        ≡ lay 0 (recover_in (short_scheme (sum_of op) n k s) n wanted key.now answers.now) message.old }
{
    let t = digits::digit_sum(n, key);
    let received = Received {
        op,
        servers: n,
        size: s,
        none: t,
        answers,
    };
    received.recover_slots(key, message);
}
