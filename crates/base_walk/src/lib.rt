// Laws of loans of slices and of local memory, and of a function's locals, which proofs that went through the code step by step cited. Nothing cites them today, and there is no code.
#![tactic(auto)]
