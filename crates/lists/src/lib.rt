// No code: definitions and laws on lists of numbers that several crates share.
#![tactic(auto)]
