// The theory of place tables has no code: its definitions stand in specs/, its theorems in proofs/.

#![tactic(auto)]
