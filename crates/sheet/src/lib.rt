// Fair use of imports: the sheet of 16 clubs, defined, with its laws.
#![tactic(auto)]
