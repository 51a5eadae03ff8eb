// Nothing runs here: specs/ has the laws of reading a location, and that its reading is the one of a grammar.
#![tactic(auto)]
