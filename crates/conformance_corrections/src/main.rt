// The conformance program of corrections, line by line: each makes its call, or sets what later calls are given. It reads `stdin` and prints `stdout`, both
// of which the second implementation writes.
// Buffers are lent one by one: the borrow checker does not cover a struct of lent buffers of which one is lent on while another is read, and one of
// arrays would ask more of callers.
#![tactic(auto)]

use trial_bytes::input::Line;
use trial_bytes::{draw, input};
use trial_corrections::state::State;
use trial_corrections::{calls, state};

// Standard input.
const STDIN_FILENO: i32 = 0;

// A line that makes a call, with the parts of the buffers that it is lent.
fn on_call(
    s: State,
    letter: u8,
    store: &mut [u8],
    queries: &[u8],
    answers: &mut [u8],
    fresh: &mut [u8],
) {
    let saved = s.saved;
    let stored = draw::at_most(s.store, store.len());
    let query_end = draw::at_most(saved.query_end, queries.len());
    let query = draw::at_most(saved.query, query_end);
    let answer_end = draw::at_most(saved.answer_end, answers.len());
    let answer = draw::at_most(saved.answer, answer_end);
    calls::on_call(
        letter,
        s.catalogue,
        saved.server,
        &mut store[..stored],
        &queries[query..query_end],
        s.edit,
        &mut answers[answer..answer_end],
        fresh,
    );
}

// One line, by its letter.
fn on_line(
    s: State,
    line: Line,
    text: &[u8],
    store: &mut [u8],
    queries: &mut [u8],
    answers: &mut [u8],
    fresh: &mut [u8],
) -> State {
    let letter = line.letter;
    match letter {
        b'#' => {
            trial_lines::comment(line, text);
            s
        }
        b'A' | b'X' | b'Y' => {
            on_call(s, letter, store, queries, answers, fresh);
            s
        }
        _ => {
            trial_corrections::on_bytes(line, store, queries, answers);
            trial_corrections::on_given(s, line)
        }
    }
}

// All lines of a text, over buffers that each line finds as the last one left them.
fn run(text: &[u8], store: &mut [u8], queries: &mut [u8], answers: &mut [u8], fresh: &mut [u8]) {
    let mut s = state::first();
    let mut at: usize = 0;
    // A `while`: only the line that was read says where the next one begins.
    while at < text.len() {
        let line = input::line_at(text, at);
        s = on_line(s, line, text, store, queries, answers, fresh);
        at = input::further(at, line.next, text.len());
    }
}

// The lines of standard input.
fn main() {
    let mut input = [0u8; 393216];
    let n = io::read_full(STDIN_FILENO, &mut input);
    // More than any catalogue of the input calls for.
    let mut store = [0u8; 131328];
    let mut queries = [0u8; 8192];
    let mut answers = [0u8; 65536];
    let mut fresh = [0u8; 65536];
    run(
        &input[..n],
        &mut store,
        &mut queries,
        &mut answers,
        &mut fresh,
    );
}
