// No code: the definitions that every contract of this repository leads back to are in specs/, the theorems about them in proofs/.
#![tactic(auto)]
