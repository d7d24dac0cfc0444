// A relay's calls in any interleaving, each atomic: definitions and proofs only.
#![tactic(auto)]
