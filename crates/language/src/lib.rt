// L2 as a theory: its definitions stand in specs/, what is true of them in proofs/. There is no code here.
#![tactic(auto)]
