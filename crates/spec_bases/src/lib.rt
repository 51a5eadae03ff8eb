// Nothing runs here: specs/ says which bases a letter stands for.
#![tactic(auto)]
