// The typing of a table as equations, as a theory: definitions stand in specs/, theorems in proofs/. There is no code here.
#![tactic(auto)]
