// Floats that stand a box at a time in a flat list. There is no code here: proofs/ has the law by which `as_chunks` gives the boxes.
#![tactic(auto)]
