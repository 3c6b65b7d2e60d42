// No code: what is promised of every map, and of the walk of a MADT that finds one, as theorems over the definitions that the
// contracts cite. The statements stand in specs/, the proofs in proofs/. The reading stands on them: the C entries ask a map
// nothing that is proved of it.
#![tactic(auto)]
