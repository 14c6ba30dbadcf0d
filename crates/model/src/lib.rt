// No code: specs/ is document 01 in antt, proofs/ holds its worked examples and the small laws that code cites.
#![tactic(auto)]
