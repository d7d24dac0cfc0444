// Notices of refused calls in plain words: definitions and laws.
#![tactic(auto)]
