// Nothing runs here: specs/ proves that lines with the columns of the public documents are read as their values.
#![tactic(auto)]
