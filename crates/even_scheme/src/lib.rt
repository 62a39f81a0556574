// No code: the even code as a scheme, in specs/, and its laws, in proofs/.
#![tactic(auto)]
