// How large rounded results can be, that they keep the order of the floats, and which are exact. There is no code here: specs/ has the
// definitions, and proofs/ the laws.
#![tactic(auto)]
