// Nothing runs here: specs/ proves what a layout holds.
#![tactic(auto)]
