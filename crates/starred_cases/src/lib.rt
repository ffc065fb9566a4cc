// The starred cases of SPECIFICATION: one table in specs/, one proof.
#![tactic(auto)]
