// No code: what one corrected byte does to a store and to the answers that were saved, over every code and either sum, in proofs/.
#![tactic(auto)]
