// Tables carried over to another form and back: claimed, and proved.
#![tactic(auto)]
