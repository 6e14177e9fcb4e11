// No code: what a format is, and how formats are put together, stand in specs/; that each way keeps the laws of a format, and what a loop over
// values back to back keeps, in proofs/.
#![tactic(auto)]
