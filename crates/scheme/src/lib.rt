// No code: what a retrieval code is, what it promises, and what its queries ask for, in specs/.
#![tactic(auto)]
