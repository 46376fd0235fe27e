// Combinations of signature bits over a list of columns: what X-free, rank and the reduced list mean, and their laws. There is no
// function here: the definitions are in specs/, and crates above cite proofs/Theorems.antt.
#![tactic(auto)]
