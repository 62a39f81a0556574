// The round code: a fetch by the short code for each block of a message, side by side, under each short key once. n servers and k messages of n^(k - 1)
// blocks of n - 1 symbols of s bytes. The rule is round_scheme/specs/Round.antt; rows are answered and recovered from in short_rows. Every function
// goes once over what it reads and writes.
// N, K and S stay parameters of their own: the clauses name them one by one, as the papers' formulas do.
#![tactic(auto)]

ghost use Rattle.std.specs.Prelude.{◌≡◌, true, ◌-◌, ◌*◌, ◌≤◌, ◌<◌, length};
ghost use Rattle.lists.specs.Parts.{put, lay};
ghost use Rattle.lists.specs.Distinct.{is_permutation};
ghost use Rattle.parameters.specs.Bounds.{blocks, round_fits};
ghost use Rattle.parameters.specs.Measures.{round_sizes};
ghost use Rattle.symbol.specs.Operations.{sum_of};
ghost use Rattle.scheme.specs.Scheme.{Valid, recover_in};
ghost use Rattle.scheme.specs.Asked.{place_naming};
ghost use Rattle.round_scheme.specs.Round.{round_query, round_admits, length_before, round_answer, round_scheme};
ghost use Rattle.round_scheme.specs.Asked.{block_rows};
ghost use Rattle.round_code.specs.Steps.{RoundNumbers, DigitRows};

use short_rows::answering::Messages;
use symbol::Operation;

mod base;
mod rows;

// Writes the server's query for the wanted message: a row for each entry of the key.
pub fn query(n: usize, k: usize, wanted: usize, server: usize, key: &[u8], out: &mut [u8])
    requires round_numbers { RoundNumbers n k }
    requires wanted_lt_k { (wanted < k) × (server < n) }
    requires key_value { is_permutation (blocks n k) key.now ≡ true }
    requires k_in_bounds { blocks n k * k ≤ length out.old }
    ensures { out.new ≡ put 0 (round_query n k wanted server key.now) out.old }
{
    for (i, entry) in key.iter().enumerate() {
        let at = i * k;
        let end = at + k;
        rows::write_row(n, k, wanted, server, *entry as usize, &mut out[at..end]);
    }
}

// Whether the rows are the server's, none of them twice: one pass that marks the number of each row without its first digit, which the others determine.
fn rows_fresh(n: usize, k: usize, server: usize, query: &[u8], v: usize) -> bool
    requires round_numbers { RoundNumbers n k }
    requires v_value { v ≡ blocks n k }
    requires query_len { length query.now ≡ v * k }
    ensures { result ≡ round_admits n k server query.now }
{
    let mut seen = [false; 64];
    for i in 0..v {
        let from = i * k;
        let end = from + k;
        if !short_code::admits(n, k, server, &query[from..end]) {
            return false;
        }
        let number = base::number_of(n, &query[from + 1..end]);
        if seen[number] {
            return false;
        }
        seen[number] = true;
    }
    true
}

// Whether the server admits the query.
pub fn admits(n: usize, k: usize, server: usize, query: &[u8]) -> bool
    requires { RoundNumbers n k }
    ensures { result ≡ round_admits n k server query.now }
{
    let v = parameters::power(n, k - 1);
    query.len() == v * k && rows_fresh(n, k, server, query, v)
}

// The bytes that the first `count` rows of a query, of any bytes and length, call for together.
fn length_before(k: usize, s: usize, query: &[u8], count: usize) -> usize
    requires { (k ≤ 7) × (s ≤ 4096) × (count ≤ 64) }
    ensures { result ≡ length_before k s query.now count }
{
    let mut total = 0;
    for i in 0..count {
        total += rows::row_length(k, s, query, i);
    }
    total
}

// The bytes that the query, of any bytes and length, calls for.
pub fn answer_length(n: usize, k: usize, s: usize, query: &[u8]) -> usize
    requires { round_fits n k s ≡ true }
    ensures { result ≡ length_before k s query.now (blocks n k) }
{
    let v = parameters::power(n, k - 1);
    length_before(k, s, query, v)
}

// Where the query names a symbol of a message: behind the answers to the rows before that of the symbol's block, if the message's digit there names it. One
// digit is looked at, and the rows before it are gone over once.
pub fn locate(
    n: usize,
    k: usize,
    s: usize,
    query: &[u8],
    message: usize,
    symbol: usize,
) -> Option<usize>
    requires s_value { round_fits n k s ≡ true }
    requires digit_rows { DigitRows n k query.now }
    requires message_lt_k { (message < k) × (symbol < blocks n k * (n - 1)) }
    ensures { result ≡ place_naming s message symbol (block_rows n k query.now) }
{
    let block = symbol / (n - 1);
    let digit = query[block * k + message] as usize;
    if digit != symbol % (n - 1) + 1 {
        return None;
    }
    Some(length_before(k, s, query, block))
}

// The bytes that the server's query calls for, without the query: a symbol for each row, but for server 0's row of zeros. They are the same for every key and
// wanted message.
pub fn expected_length(
    n: usize,
    k: usize,
    s: usize,
    wanted: usize,
    server: usize,
    key: &[u8],
) -> usize
    requires s_value { round_fits n k s ≡ true }
    requires wanted_lt_k { (wanted < k) × (server < n) }
    requires key_value { is_permutation (blocks n k) key.now ≡ true }
    ensures { result ≡ length_before k s (round_query n k wanted server key.now) (blocks n k) }
{
    if server == 0 {
        return (key.len() - 1) * s;
    }
    key.len() * s
}

// Writes the answer to a query that a server admits: the answers to its rows, one behind the other, and none for the row of zeros.
pub fn answer(
    op: Operation,
    n: usize,
    k: usize,
    s: usize,
    store: &[u8],
    query: &[u8],
    out: &mut [u8],
)
    requires s_value { round_fits n k s ≡ true }
    requires store_len { length store.now ≡ (round_sizes n k s).store }
    requires digit_rows { DigitRows n k query.now }
    requires k_in_bounds { length_before k s query.now (blocks n k) ≤ length out.old }
    ensures { out.new ≡ put 0 (round_answer (sum_of op) n k s store.now query.now) out.old }
{
    let v = parameters::power(n, k - 1);
    let stride = v * (n - 1);
    let mut at = 0;
    for i in 0..v {
        let first = i * (n - 1);
        let messages = Messages {
            op,
            first,
            stride,
            size: s,
        };
        let from = i * k;
        let end = from + k;
        at = rows::answer_row(&messages, store, &query[from..end], at, out);
    }
}

// Writes as much of the wanted message as `message` has room for, from the slots of the answer buffer, block by block. In server 0's slot the answers behind
// the row of zeros, whose entry of the key is 0, lie a symbol earlier than elsewhere. The key is enough: `wanted` says which fetch it is.
pub fn recover(
    op: Operation,
    n: usize,
    k: usize,
    s: usize,
    wanted: usize,
    key: &[u8],
    answers: &[u8],
    message: &mut [u8],
)
    requires s_value { round_fits n k s ≡ true }
    requires wanted_lt_k { wanted < k }
    requires valid { Valid (round_scheme (sum_of op) n k s) key.now }
    requires s_in_bounds { n * (round_sizes n k s).slot ≤ length answers.now }
    ensures { message.new
        ≡ lay 0 (recover_in (round_scheme (sum_of op) n k s) n wanted key.now answers.now) message.old }
{
    let slot = key.len() * s;
    let block = (n - 1) * s;
    let slots = rows::Slots {
        op,
        servers: n,
        messages: k,
        size: s,
        slot,
        answers,
    };
    let mut before = 0;
    for (i, entry) in key.iter().enumerate() {
        let entry = *entry as usize;
        let at = i * block;
        slots.recover_block(entry, before, i * s, at, message);
        before += rows::first_length(s, entry);
    }
}
