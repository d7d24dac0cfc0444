// A table with a row more: definitions and laws.
#![tactic(auto)]
