// The lines of a conformance program's input that read a catalogue, or set what later calls are lent. Proved safe and to end, like all of the
// test program; the other calls are `trial_calls`, whole fetches `trial_fetches`.
// Buffers are lent one by one: the borrow checker does not cover a struct of lent buffers of which one is lent on while another is read, and one of
// arrays would ask more of callers.
#![tactic(auto)]

use session::Session;
use trial_bytes::draw;
use trial_bytes::input::Line;
use trials::state::State;
use trials::{fields, keys, show};

// Catalogues.
pub mod catalogues;

// A comment, which is printed.
pub fn comment(line: Line, text: &[u8]) {
    let to = draw::at_most(line.b, text.len());
    let from = draw::at_most(line.a, to);
    show::text(&text[from..to]);
    show::end();
}

// A comment or a catalogue's text.
pub fn on_part(s: State, line: Line, text: &[u8]) -> State {
    if line.letter == b'#' {
        comment(line, text);
        return s;
    }
    let to = draw::at_most(line.b, text.len());
    let from = draw::at_most(line.a, to);
    catalogues::text(s, &text[from..to])
}

// Lines that set what later calls are lent, without a call: the key and its length, the store and its length, an answer, single bytes, and all answers.
pub fn on_buffer(
    s: State,
    line: Line,
    key: &mut [u8],
    store: &mut [u8],
    query: &mut [u8],
    answer: &mut [u8],
    answers: &mut [u8],
) -> State {
    let letter = line.letter;
    match letter {
        b'k' => {
            keys::key(line.a as u64, s.catalogue, key);
            return s.with_lengths(line.b, s.store);
        }
        b's' => {
            draw::start(line.a as u64, line.b, store);
            return s.with_lengths(s.key, line.b);
        }
        b'e' => draw::numbers(line.a as u64, 256, answer),
        b'o' => draw::poke(key, line.a, line.b),
        b'd' => draw::poke(store, line.a, line.b),
        b'q' => draw::poke(query, line.a, line.b),
        b'z' => draw::fill(draw::byte(line.a), answers),
        _ => (),
    }
    s
}

// M: the session's meters.
fn shown(session: Session) {
    show::letter(b'M');
    show::meters(session.meters);
    show::end();
}

// Lines that set a field of the session, or show its meters.
fn on_session_field(s: State, line: Line) -> State {
    let session = s.session;
    let letter = line.letter;
    match letter {
        b'v' => s.with_session(fields::wanted(session, line.a)),
        b'y' => s.with_session(fields::key(session, line.a, line.b)),
        b'u' => s.with_session(fields::issued(session, line.a, line.b)),
        b'j' => s.with_session(fields::taken(session, line.a, line.b)),
        b'U' => s.with_session(fields::sent(session, line.a, line.b)),
        b'J' => s.with_session(fields::got(session, line.a, line.b)),
        b'M' => {
            shown(session);
            s
        }
        _ => s,
    }
}

// Lines that set the catalogue, days, lengths, or a field of the session, without a call on a session.
pub fn on_field(s: State, line: Line) -> State {
    let session = s.session;
    let letter = line.letter;
    match letter {
        b'c' => catalogues::catalogue(s, line),
        b'g' => s.with_session(fields::catalogue(session, catalogues::catalogue_of(s.given, line))),
        b'f' | b'l' | b'n' => s.with_given(catalogues::set_day(s.given, line)),
        b'p' | b'm' => s.with_given(catalogues::set_lengths(s.given, line)),
        _ => on_session_field(s, line),
    }
}
