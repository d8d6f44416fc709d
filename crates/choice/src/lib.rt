// Which list of years is chosen: theory without code. The definitions are in specs/, the theorems in proofs/.

#![tactic(auto)]
