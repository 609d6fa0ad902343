// Lists that a caller lends to be filled. There is no code here: specs/ says what such a list holds afterwards, and proofs/ has the
// laws of the loops that fill one.
#![tactic(auto)]
