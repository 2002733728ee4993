// The ground of the other crates: definitions in specs/, laws in proofs/, and no code.
#![tactic(auto)]
