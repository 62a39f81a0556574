// No code: whole lists of fetches, and what a server can learn from them. The claim is in specs/Claim.antt, its proof in proofs/Theorem.antt.
#![tactic(auto)]
