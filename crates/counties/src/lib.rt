// A list of more than one county: its quorums, choices and marks on two levels, defined, with their laws.
#![tactic(auto)]
