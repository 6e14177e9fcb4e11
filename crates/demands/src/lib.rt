// No code: the demands stand in specs/, as statements about document 01's definitions (crate rules), and their proofs in proofs/.
// EntryPoints says of the contracts of pws's functions that they ask for nothing, are met and say the promises that the demands are about; pws_c says it of
// the functions that are exported to C.
#![tactic(auto)]
