// No code: laws of arrays and slices, the kit's lists, stand in proofs/.
#![tactic(auto)]
