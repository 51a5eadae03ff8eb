// Nothing runs here: specs/ proves which keys and kinds are taken, and that a list of frequent ones before the rule changes no answer.
#![tactic(auto)]
