// The bytes of a hatch list, with no code. specs/ says what they are, and that reading and writing undo each other, for any mark of three bytes, any
// table of versions and any kind of record. proofs/ proves it.
#![tactic(auto)]
