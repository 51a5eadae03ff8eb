// Nothing runs here: specs/ has the laws of loops over members, and that each reader leaves less than it was given.
#![tactic(auto)]
