// The conformance program once more, with the calls of the codes that the requests add to the first two; as `conformance`, it reads `stdin` and prints
// `stdout`, both of which the second implementation writes. Together they would print more than a program may.
#![tactic(auto)]

fn main() {
    trial_runs::program();
}
