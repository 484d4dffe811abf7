// What the schools are promised, each as one statement (specs/), proved from the theorems of the crates below (proofs/). There is no code here.

#![tactic(auto)]
