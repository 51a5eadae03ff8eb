// Nothing runs here: specs/Promise.antt says what is promised, and specs/Grounds.antt why it holds.
#![tactic(auto)]
