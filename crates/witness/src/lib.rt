// Two histories that differ in all that the tape does not show and meet the premises of demand 3. See specs/ and proofs/.

#![tactic(auto)]
