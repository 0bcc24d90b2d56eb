// The meaning of the two stores: definitions in specs/, laws in proofs/. There is no code here.
#![tactic(auto)]
