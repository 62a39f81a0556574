// Single calls, each printed on a line of its own: what it gave, then the whole of the buffer that it was lent to write, filled before with one byte,
// and the session that it handed back.
use session::Handed;
use trial_bytes::draw;
use trials::show;
use trials::state::State;

// w ROOM: writes the catalogue's text.
pub fn write(s: State, out: &mut [u8]) {
    draw::fill(170, out);
    show::letter(b'w');
    show::outcome(catalogue_text::write(s.catalogue, out));
    show::bytes(out);
    show::end();
}

// b WANTED: begins a fetch with the lent key.
pub fn begin(s: State, wanted: usize, key: &[u8]) -> State {
    let handed = s.session.begin(s.catalogue, wanted, key);
    show::letter(b'b');
    show::verdict(handed.verdict);
    show::session(handed.session);
    show::end();
    s.with_session(handed.session)
}

// What a call on the session handed back, and the buffer that it may have written.
fn shown(s: State, letter: u8, handed: Handed, buffer: &[u8]) -> State {
    show::letter(letter);
    show::verdict(handed.verdict);
    show::bytes(buffer);
    show::session(handed.session);
    show::end();
    s.with_session(handed.session)
}

// i SERVER ROOM: issues a query today.
pub fn issue(s: State, n: usize, query: &mut [u8]) -> State {
    draw::fill(238, query);
    let handed = s.session.issue(s.given.today, n, query);
    shown(s, b'i', handed, query)
}

// a SERVER LENGTH ROOM: answers the query of that length today.
pub fn answer(s: State, n: usize, store: &[u8], query: &[u8], out: &mut [u8]) {
    draw::fill(221, out);
    show::letter(b'a');
    show::outcome(server::answer(s.catalogue, s.given.today, n, store, query, out));
    show::bytes(out);
    show::end();
}

// h SERVER LENGTH ROOM: takes the answer of that length into an answer buffer of that many bytes.
pub fn take(s: State, n: usize, answer: &[u8], answers: &mut [u8]) -> State {
    let handed = s.session.take(n, answer, answers);
    shown(s, b'h', handed, answers)
}

// r ANSWERS ROOM: recovers the message from an answer buffer of that many bytes.
pub fn recover(s: State, answers: &[u8], message: &mut [u8]) -> State {
    draw::fill(204, message);
    let handed = s.session.recover(answers, message);
    shown(s, b'r', handed, message)
}
