// The turning code: the short code, in which each server plays the one that lies r further on, modulo n. The last digit of a key is the turn r, the
// others are a key of the short code. The rule is specs/Turn.antt. Which digits are good, how long an answer is and what it says are the short
// code's, and so are the functions (`key_good`, `answer_length`, `answer` of short_code); what knows the turn is here.
// N, K and S stay parameters of their own: the clauses name them one by one, as the papers' formulas do.
#![tactic(auto)]

ghost use Rattle.std.specs.Prelude.{◌≡◌, true, ◌*◌, ◌≤◌, ◌<◌, length};
ghost use Rattle.lists.specs.Parts.{put, lay};
ghost use Rattle.lists.specs.Below.{all_below};
ghost use Rattle.parameters.specs.Bounds.{short_fits};
ghost use Rattle.parameters.specs.Measures.{turn_sizes};
ghost use Rattle.symbol.specs.Operations.{sum_of};
ghost use Rattle.scheme.specs.Scheme.{Valid, recover_in};
ghost use Rattle.short_scheme.specs.Short.{short_answer_length};
ghost use Rattle.turn_code.specs.Turn.{part_of, turn_query, turn_admits, turn_scheme};

use short_rows::digits;
use short_rows::recovering::Received;
use symbol::Operation;

// The server of the short code that the server plays.
fn part(n: usize, server: usize, key: &[u8]) -> usize
    requires server_lt_n { server < n }
    requires key_nonzero { (0 < length key.now) × (all_below n key.now ≡ true) }
    ensures { result ≡ part_of n key.now server }
{
    let turn = key[key.len() - 1] as usize;
    digits::add_modulo(n, server, turn)
}

// Writes the server's query for the wanted message.
pub fn query(n: usize, wanted: usize, server: usize, key: &[u8], out: &mut [u8])
    requires server_lt_n { (server < n) × (n ≤ 16) }
    requires key_value { all_below n key.now ≡ true }
    requires wanted_in_bounds { (wanted < length key.now) × (length key.now ≤ length out.old) }
    ensures { out.new ≡ put 0 (turn_query n wanted server key.now) out.old }
{
    let played = part(n, server, key);
    let last = key.len() - 1;
    short_code::query(n, wanted, played, &key[..last], out);
}

// Whether a server, whichever it is, admits the query.
pub fn admits(n: usize, k: usize, query: &[u8]) -> bool
    ensures { result ≡ turn_admits n k query.now }
{
    query.len() == k && digits::all_below(n, query)
}

// The bytes that the server's query calls for, without the query: those of the part that it plays.
pub fn expected_length(n: usize, s: usize, wanted: usize, server: usize, key: &[u8]) -> usize
    requires server_lt_n { server < n }
    requires key_nonzero { (0 < length key.now) × (all_below n key.now ≡ true) }
    ensures { result ≡ short_answer_length s (turn_query n wanted server key.now) }
{
    let played = part(n, server, key);
    let last = key.len() - 1;
    short_code::expected_length(n, s, wanted, played, &key[..last])
}

// Writes as much of the wanted message as `message` has room for, from the slots of the answer buffer. The server that was asked for none of it
// is the one that plays server t of the short code, t being the sum of the key's other digits; from there on they go around as in the short code. The
// key is enough: k and `wanted` say which fetch it is.
pub fn recover(
    op: Operation,
    n: usize,
    k: usize,
    s: usize,
    wanted: usize,
    key: &[u8],
    answers: &[u8],
    message: &mut [u8],
)
    requires s_value { short_fits n k s ≡ true }
    requires valid { Valid (turn_scheme (sum_of op) n k s) key.now }
    requires s_in_bounds { n * (turn_sizes n k s).slot ≤ length answers.now }
    ensures { message.new
        ≡ lay 0 (recover_in (turn_scheme (sum_of op) n k s) n wanted key.now answers.now) message.old }
{
    let last = key.len() - 1;
    let turn = key[last] as usize;
    let t = digits::digit_sum(n, &key[..last]);
    let player = digits::subtract_modulo(n, t, turn);
    let received = Received {
        op,
        servers: n,
        size: s,
        none: player,
        answers,
    };
    received.recover_slots(&key[..last], message);
}
