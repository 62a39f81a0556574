// The conformance program a third time, with the calls about meters, of all codes; as `conformance`, it reads `stdin` and prints `stdout`, both of
// which the second implementation writes.
#![tactic(auto)]

fn main() {
    trial_runs::program();
}
