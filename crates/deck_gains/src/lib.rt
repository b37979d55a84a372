#![tactic(auto)]
// Each number of an accepted card's table is a gain call's answer, `gain_of` of crate `ioncap`: the
// statement (specs/) and its proof (proofs/). Crates `deck` and `ioncap` have the code.
