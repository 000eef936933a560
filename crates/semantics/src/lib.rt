// The machine as a theory: its definition stands in specs/, what is proved of it in proofs/. There is no code here.
#![tactic(auto)]
