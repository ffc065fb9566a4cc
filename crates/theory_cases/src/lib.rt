// No code: specs/Table*.antt hold what the reference program gave, proofs/Agreement.antt that the definitions of theory give the same.
#![tactic(auto)]
