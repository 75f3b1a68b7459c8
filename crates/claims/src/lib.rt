// No code: the claim of grants over lists of calls, and the theorems that stand on the contracts of the decoder.
#![tactic(auto)]
