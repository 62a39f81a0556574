// No code: the numbers that each call of a session can give, and that no call reads the places of a key that are not used. In specs/, proved in proofs/.
#![tactic(auto)]
