// No code: the round code's rule and the code as a scheme, in specs/, and its laws, in proofs/.
#![tactic(auto)]
