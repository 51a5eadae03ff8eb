// Nothing runs here: specs/ and proofs/ say what follows from the contracts of the reader and the writers, for any code that meets them.
#![tactic(auto)]
