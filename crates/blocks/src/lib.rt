// Lists of bytes that are a head and then blocks of one width, defined.
#![tactic(auto)]
