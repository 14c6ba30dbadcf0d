// No code: proofs/ shows what holds of the definitions of `model`.
#![tactic(auto)]
