// Tests of numbers and choices by a test: what the definitions of every crate are made of, and their laws. Nothing here is
// about locks or lines, and there is no code: `specs` has the one definition, `proofs` the laws.
#![tactic(auto)]
