// No code: the bench cards of document 01, as one table with one theorem.
#![tactic(auto)]
