// The wall chart of quorums: definitions and laws.
#![tactic(auto)]
