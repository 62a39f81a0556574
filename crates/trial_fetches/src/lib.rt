// Whole fetches: begin, then for each server issue, answer and take, then recover, all in buffers of exactly the length that they need, but for the
// message's, which the line says.
// Buffers are lent one by one: the borrow checker does not cover a struct of lent buffers of which one is lent on while another is read, and one of
// arrays would ask more of callers.
#![tactic(auto)]

ghost use Rattle.std.specs.Prelude.{◌≤◌};

use calendar::Day;
use parameters::Sizes;
use refusal::Refusal;
use session::Session;
use trial_bytes::draw;
use trial_bytes::input::Line;
use trials::show;
use trials::state::State;

// A session, and what its exchanges with servers came to so far: the sums of the queries and of the answers, and the answers' bytes.
#[derive(Clone, Copy)]
pub struct Exchanged {
    pub session: Session,
    pub queries: u64,
    pub answers: u64,
    pub received: usize,
}

// The sum of two numbers below 2^24; else 0.
fn plus(a: usize, b: usize) -> usize {
    if a < 16777216 {
        if b < 16777216 {
            return a + b;
        }
    }
    0
}

// One exchange: the server's query is issued, answered from the store, and the answer taken.
fn exchange(
    so_far: Exchanged,
    today: Day,
    n: usize,
    store: &[u8],
    query: &mut [u8],
    answer: &mut [u8],
    answers: &mut [u8],
) -> Exchanged {
    let session = so_far.session;
    let issued = session.issue(today, n, query);
    let given = server::answer(session.catalogue, today, n, store, query, answer);
    let got = draw::at_most(given.unwrap_or(0), answer.len());
    let session = issued.session;
    let taken = session.take(n, &answer[..got], answers);
    let session = taken.session;
    Exchanged {
        session: session,
        queries: show::sum(so_far.queries, query),
        answers: show::sum(so_far.answers, &answer[..got]),
        received: plus(so_far.received, got),
    }
}

// The exchanges with all servers, of which there are at most 16, in ascending order.
fn exchanges(
    begun: Session,
    today: Day,
    store: &[u8],
    query: &mut [u8],
    answer: &mut [u8],
    answers: &mut [u8],
) -> Exchanged {
    let mut so_far = Exchanged {
        session: begun,
        queries: 0,
        answers: 0,
        received: 0,
    };
    let servers = draw::at_most(begun.catalogue.servers, 16);
    for n in 0..servers {
        so_far = exchange(so_far, today, n, store, query, answer, answers);
    }
    so_far
}

// Recovers the message, and prints the verdict, the message, and a sum of the meters.
fn recovered(s: Session, answers: &[u8], message: &mut [u8]) {
    draw::fill(204, message);
    let handed = s.recover(answers, message);
    show::verdict(handed.verdict);
    show::bytes(message);
    show::metered(handed.session.meters);
}

// The exchanges and the recovery, after begin: the sums of queries and answers, the bytes received, recover's verdict and the message, and a sum of
// the meters.
fn rest(
    begun: Session,
    today: Day,
    store: &[u8],
    query: &mut [u8],
    answer: &mut [u8],
    answers: &mut [u8],
    message: &mut [u8],
) {
    let done = exchanges(begun, today, store, query, answer, answers);
    show::total(done.queries);
    show::total(done.answers);
    show::number(done.received);
    let session = done.session;
    recovered(session, answers, message);
}

// The bytes of all symbols of a message, less some; no more than there are.
fn room_of(whole: usize, less: usize, most: usize) -> usize
    ensures { result ≤ most }
{
    let all = draw::at_most(whole, most);
    all - draw::at_most(less, all)
}

// The same in buffers of exactly the lengths that the catalogue calls for; the message's has `less` bytes less than all symbols of a message.
fn exact(
    begun: Session,
    today: Day,
    sizes: Sizes,
    less: usize,
    store: &[u8],
    query: &mut [u8],
    answer: &mut [u8],
    answers: &mut [u8],
    message: &mut [u8],
) {
    let asked = draw::at_most(sizes.query, query.len());
    let slot = draw::at_most(sizes.slot, answer.len());
    let slots = draw::at_most(session::bound(begun.catalogue).unwrap_or(0), answers.len());
    let room = room_of(sizes.message, less, message.len());
    rest(
        begun,
        today,
        store,
        &mut query[..asked],
        &mut answer[..slot],
        &mut answers[..slots],
        &mut message[..room],
    );
}

// x WANTED LESS: a whole fetch with the lent key and store, all of it today. Refused by begin, it ends there.
fn whole(
    s: State,
    wanted: usize,
    less: usize,
    key: &[u8],
    store: &[u8],
    query: &mut [u8],
    answer: &mut [u8],
    answers: &mut [u8],
    message: &mut [u8],
) {
    show::letter(b'x');
    let begun = Session::blank().begin(s.catalogue, wanted, key);
    show::verdict(begun.verdict);
    let session = begun.session;
    let Ok(sizes) = catalogue::sizes(session.catalogue) else {
        show::end();
        return;
    };
    exact(
        session,
        s.given.today,
        sizes,
        less,
        store,
        query,
        answer,
        answers,
        message,
    );
    show::end();
}

// A line that makes a whole fetch, with as much of the key and the store as is lent.
pub fn on_fetch(
    s: State,
    line: Line,
    key: &[u8],
    store: &[u8],
    query: &mut [u8],
    answer: &mut [u8],
    answers: &mut [u8],
    message: &mut [u8],
) {
    let length = draw::at_most(s.key, key.len());
    let stored = draw::at_most(s.store, store.len());
    whole(
        s,
        line.a,
        line.b,
        &key[..length],
        &store[..stored],
        query,
        answer,
        answers,
        message,
    );
}
