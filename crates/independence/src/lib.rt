#![tactic(auto)]
// The deck of document 01 section 8 over any antenna: its definitions (specs/) and demand 3
// (proofs/). Crate `deck` has the antenna and the code.
