// The lines of a conformance program's input, one after another: each makes its call, or sets what later calls are lent. Proved safe and to end,
// like all of the test program.
// Buffers are lent one by one: the borrow checker does not cover a struct of lent buffers of which one is lent on while another is read, and one of
// arrays would ask more of callers.
#![tactic(auto)]

use trial_bytes::input;
use trial_bytes::input::Line;
use trials::state;
use trials::state::State;

// Standard input.
const STDIN_FILENO: i32 = 0;

// One line, by its letter.
fn on_line(
    s: State,
    line: Line,
    text: &[u8],
    key: &mut [u8],
    store: &mut [u8],
    query: &mut [u8],
    answer: &mut [u8],
    answers: &mut [u8],
    message: &mut [u8],
) -> State {
    let letter = line.letter;
    match letter {
        b'#' | b't' => return trial_lines::on_part(s, line, text),
        b'k' | b's' | b'e' | b'o' | b'd' | b'q' | b'z' => return trial_lines::on_buffer(
            s, line, key, store, query, answer, answers,
        ),
        b'b' | b'i' | b'h' | b'r' => return trial_calls::on_session(
            s, line, key, query, answer, answers, message,
        ),
        b'w' | b'a' => trial_calls::on_server(s, line, store, query, answer),
        b'x' => trial_fetches::on_fetch(s, line, key, store, query, answer, answers, message),
        _ => return trial_lines::on_field(s, line),
    }
    s
}

// All lines of a text, in buffers that each line finds as the last one left them.
pub fn run(
    text: &[u8],
    key: &mut [u8],
    store: &mut [u8],
    query: &mut [u8],
    answer: &mut [u8],
    answers: &mut [u8],
    message: &mut [u8],
) {
    let mut s = state::first();
    let mut at: usize = 0;
    // A `while`: only the line that was read says where the next one begins.
    while at < text.len() {
        let line = input::line_at(text, at);
        s = on_line(s, line, text, key, store, query, answer, answers, message);
        at = input::further(at, line.next, text.len());
    }
}

// A conformance program: the lines of standard input.
pub fn program() {
    let mut input = [0u8; 393216];
    let n = io::read_full(STDIN_FILENO, &mut input);
    // Each buffer has room for more than any catalogue of the input calls for.
    let mut key = [0u8; 2304];
    let mut store = [0u8; 262656];
    let mut query = [0u8; 2304];
    let mut answer = [0u8; 66048];
    let mut answers = [0u8; 139776];
    let mut message = [0u8; 131584];
    run(
        &input[..n],
        &mut key,
        &mut store,
        &mut query,
        &mut answer,
        &mut answers,
        &mut message,
    );
}
