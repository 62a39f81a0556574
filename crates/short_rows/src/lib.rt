// Rows of digits, for the codes that ask for them: the sums of digits, the answers to rows wherever the messages lie in the store, and
// recovery wherever the answers lie in the answer buffer. What a row names and what is answered to it is in short_scheme/specs/Short.antt.
#![tactic(auto)]

pub mod answering;
pub mod digits;
pub mod recovering;
