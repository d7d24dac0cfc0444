// A relay that holds only rows that answered: definitions and proofs only.
#![tactic(auto)]
