// The protocol's definitions.
#![tactic(auto)]
