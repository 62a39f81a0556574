// The conformance program of the answer unit, line by line: each makes its call, or sets what later calls find. It reads `stdin` and prints `stdout`, both
// of which the second implementation writes.
#![tactic(auto)]

use trial_bytes::input::Line;
use trial_bytes::{draw, input};
use trial_units::state::State;
use trial_units::{calls, state};

// Standard input.
const STDIN_FILENO: i32 = 0;

// One line, by its letter.
fn on_line(s: State, line: Line, text: &[u8], store: &mut [u8]) -> State {
    let letter = line.letter;
    match letter {
        b'#' => trial_lines::comment(line, text),
        b's' => {
            draw::start(line.a as u64, line.b, store);
            return s.with_store(line.b);
        }
        b'd' => draw::poke(store, line.a, line.b),
        b'Z' | b'S' | b'R' | b'W' => {
            let length = draw::at_most(s.store, store.len());
            let unit = calls::on_call(
                s.unit,
                s.catalogue,
                letter,
                line.a,
                line.b,
                &store[..length],
            );
            return s.with_unit(unit);
        }
        _ => return trial_units::on_given(s, line),
    }
    s
}

// All lines of a text, over a store that each line finds as the last one left it.
fn run(text: &[u8], store: &mut [u8]) {
    let mut s = state::first();
    let mut at: usize = 0;
    // A `while`: only the line that was read says where the next one begins.
    while at < text.len() {
        let line = input::line_at(text, at);
        s = on_line(s, line, text, store);
        at = input::further(at, line.next, text.len());
    }
}

// The lines of standard input.
fn main() {
    let mut input = [0u8; 393216];
    let n = io::read_full(STDIN_FILENO, &mut input);
    // More than any catalogue of the input calls for.
    let mut store = [0u8; 32768];
    run(&input[..n], &mut store);
}
