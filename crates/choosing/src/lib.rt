// Whom to call, as a definition.
#![tactic(auto)]
