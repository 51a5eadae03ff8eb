// Nothing runs here: specs/Here.antt computes the answers that docs/DIFFERENCES.md has under "Here".
#![tactic(auto)]
