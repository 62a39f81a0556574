// What the conformance programs do with bytes alone: the lines of their input, and what they draw. Proved safe and to end, like all of them.
#![tactic(auto)]

// Numbers and bytes, drawn from a number.
pub mod draw;
// The lines of the input.
pub mod input;
