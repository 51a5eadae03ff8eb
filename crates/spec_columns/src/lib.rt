// Nothing runs here: specs/ proves that what the writer writes has the columns and the width of the GenBank flat file, and values presented as INSDC asks.
#![tactic(auto)]
