// The seats of a list on a well-formed table: claimed, and proved.
#![tactic(auto)]
