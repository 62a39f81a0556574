// What the conformance program of corrections is made of: its calls, what they are given, and what stands between two of them. Proved safe and to end,
// like all test programs.
// Buffers are lent one by one: the borrow checker does not cover a struct of lent buffers of which one is lent on while another is read, and one of
// arrays would ask more of callers.
#![tactic(auto)]

use state::State;
use trial_bytes::draw;
use trial_bytes::input::Line;
use trial_lines::catalogues;

// The calls.
pub mod calls;
// What stands between two calls.
pub mod state;

// q PLACE BYTE BYTE BYTE BYTE: four bytes of queries.
fn four(line: Line, queries: &mut [u8]) {
    let at = draw::at_most(line.a, queries.len());
    draw::poke(queries, at, line.b);
    draw::poke(queries, at + 1, line.c);
    draw::poke(queries, at + 2, line.d);
    draw::poke(queries, at + 3, line.e);
}

// Lines that set bytes of the store, of queries or of saved answers.
pub fn on_bytes(line: Line, store: &mut [u8], queries: &mut [u8], answers: &mut [u8]) {
    let letter = line.letter;
    match letter {
        b's' => draw::start(line.a as u64, line.b, store),
        b'd' => draw::poke(store, line.a, line.b),
        b'q' => four(line, queries),
        b'e' => draw::start(line.a as u64, line.b, answers),
        b'y' => draw::poke(answers, line.a, line.b),
        _ => (),
    }
}

// Lines that set what later calls are given beside bytes: the catalogue, days, lengths, the edit, the server with its query and its saved answer, and the
// length of the store.
pub fn on_given(s: State, line: Line) -> State {
    let letter = line.letter;
    match letter {
        b'C' => s.with_catalogue(catalogues::catalogue_of(s.given, line)),
        b'f' | b'l' => s.with_given(catalogues::set_day(s.given, line)),
        b'p' | b'm' => s.with_given(catalogues::set_lengths(s.given, line)),
        b'E' => s.with_edit(state::edit_of(line)),
        b'w' => s.with_saved(state::saved_of(line)),
        b's' => s.with_store(line.b),
        _ => s,
    }
}
