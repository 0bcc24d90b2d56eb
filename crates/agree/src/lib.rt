// The theorem between the two stores, over the calls of both: a definition in specs/, its proof in proofs/. There is no code here.
#![tactic(auto)]
