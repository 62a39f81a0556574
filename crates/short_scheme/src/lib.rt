// No code: the short code as a scheme, in specs/, and its laws, in proofs/.
#![tactic(auto)]
