// No code: the base edges of a graph, the parity-check matrix that they lift to, and the encoding, with their theorems.
#![tactic(auto)]
