// What the conformance programs are made of, beside bytes (`trial_bytes`): keys, what stands between two calls, and what is printed of them. All of it
// is proved safe and to end, and no more: what they print is for the comparison with the second implementation.
#![tactic(auto)]

// Sessions with a field set.
pub mod fields;
// Keys, drawn from a number.
pub mod keys;
// What is printed.
pub mod show;
// What stands between two calls.
pub mod state;
