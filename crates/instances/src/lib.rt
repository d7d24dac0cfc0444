// Founded histories, computed over bytes, in which the premises of claims are met.
#![tactic(auto)]
