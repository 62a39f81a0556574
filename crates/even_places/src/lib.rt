// No code: the place rule of the even code, and its combinatorics for all numbers of servers and messages.
#![tactic(auto)]
