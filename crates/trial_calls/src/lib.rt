// The lines of a conformance program's input that make a single call on a session or a server, or write a catalogue's text. Proved safe and to end,
// like all of the test program.
// Buffers are lent one by one: the borrow checker does not cover a struct of lent buffers of which one is lent on while another is read, and one of
// arrays would ask more of callers.
#![tactic(auto)]

use trial_bytes::draw;
use trial_bytes::input::Line;
use trials::state::State;

// Single calls.
pub mod single;

// Lines that make a call on a session.
pub fn on_session(
    s: State,
    line: Line,
    key: &[u8],
    query: &mut [u8],
    answer: &[u8],
    answers: &mut [u8],
    message: &mut [u8],
) -> State {
    let letter = line.letter;
    match letter {
        b'b' => {
            let length = draw::at_most(s.key, key.len());
            single::begin(s, line.a, &key[..length])
        }
        b'i' => {
            let room = draw::at_most(line.b, query.len());
            single::issue(s, line.a, &mut query[..room])
        }
        b'h' => {
            let length = draw::at_most(line.b, answer.len());
            let room = draw::at_most(line.c, answers.len());
            single::take(s, line.a, &answer[..length], &mut answers[..room])
        }
        b'r' => {
            let length = draw::at_most(line.a, answers.len());
            let room = draw::at_most(line.b, message.len());
            single::recover(s, &answers[..length], &mut message[..room])
        }
        _ => s,
    }
}

// Lines that write a catalogue's text or answer a query.
pub fn on_server(s: State, line: Line, store: &[u8], query: &[u8], answer: &mut [u8]) {
    let letter = line.letter;
    match letter {
        b'w' => {
            let room = draw::at_most(line.a, answer.len());
            single::write(s, &mut answer[..room]);
        }
        b'a' => {
            let stored = draw::at_most(s.store, store.len());
            let length = draw::at_most(line.b, query.len());
            let room = draw::at_most(line.c, answer.len());
            single::answer(
                s,
                line.a,
                &store[..stored],
                &query[..length],
                &mut answer[..room],
            );
        }
        _ => (),
    }
}
