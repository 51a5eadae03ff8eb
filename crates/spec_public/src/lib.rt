// Nothing runs here: specs/ says what the public documents say, apart from the Rust.
#![tactic(auto)]
