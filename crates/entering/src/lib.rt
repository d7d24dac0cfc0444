// Lists of calls with rounds among them: demand 3 and fair use of these, defined.
#![tactic(auto)]
