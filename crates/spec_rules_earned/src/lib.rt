// Nothing runs here: specs/Rules.antt computes that each keeping rule earns its place.
#![tactic(auto)]
