// A chain of links, and one put in: definitions and laws.
#![tactic(auto)]
