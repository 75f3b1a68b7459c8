// No code: one iteration of min-sum over the work memory, and its laws.
#![tactic(auto)]
