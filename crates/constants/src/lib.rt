#![tactic(auto)]
// The constants of document 01 sections 2 to 6, 8, 9 and of its limits beside their bits: one computed
// test of the definitions, and its lemma. No code.
