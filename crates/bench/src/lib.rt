// The bench formulas of the rules, as a theory: definitions stand in specs/, theorems in proofs/. There is no code here.
#![tactic(auto)]
