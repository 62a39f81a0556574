// The conformance program: reads calls, one to a line, makes them, and prints what each gave. The second implementation (docs/src/second.rs) writes
// the calls, `stdin`, and what they must give, `stdout`. A line is a letter and up to five numbers, a comment, or a catalogue's text.
#![tactic(auto)]

fn main() {
    trial_runs::program();
}
