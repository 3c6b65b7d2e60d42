// No code: what is promised of every capture, as theorems over the definitions that the contracts cite, and of every public
// call, as theorems over the contracts themselves. The statements stand in specs/, the proofs in proofs/. The promises of maps
// stand in map_promises.
#![tactic(auto)]
