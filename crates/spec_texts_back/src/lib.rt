// Nothing runs here: specs/ proves that each text, written over lines and read again, is the same text.
#![tactic(auto)]
