// Nothing runs here: specs/Switch.antt says what the strict switch changes and what it leaves, and the other files why.
#![tactic(auto)]
