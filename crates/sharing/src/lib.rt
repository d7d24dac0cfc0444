// Fair use of imports, of calls and of whole histories.
#![tactic(auto)]
