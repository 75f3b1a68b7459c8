// No code: the starred rows of the commissioning table, and the check over all of them.
#![tactic(auto)]
