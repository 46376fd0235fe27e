// Signatures and columns: definitions and laws alone, no function. What a response leaves in the register, what a cell's column is,
// and which signatures the fillings of a set clock to. `specs/` says what they are; `proofs/DifferenceLaws` and `proofs/FillingLaws`
// say how signatures differ, which is what the crates above use.
#![tactic(auto)]
