// Nothing runs here: specs/ proves that a record that keeps the rules, written and read again, is the same table.
#![tactic(auto)]
