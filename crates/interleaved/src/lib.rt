// Every interleaving of a relay's calls is a list of calls: definitions and proofs only.
#![tactic(auto)]
