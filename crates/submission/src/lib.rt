// Opening a ledger, submitting a message and asking a status, as definitions; histories, and the three demands as theorems. See specs/ and proofs/.

#![tactic(auto)]
