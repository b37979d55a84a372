#![tactic(auto)]
// Document 01's marked (M) examples: one computed test of the definitions, and the equations that
// it says. No code.
