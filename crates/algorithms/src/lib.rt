// The lists of inference and merging as code makes them: no code, but definitions (specs/), and that they are those of theory (proofs/).
#![tactic(auto)]
