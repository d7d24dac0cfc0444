// The walk of document 01, short histories and single calls, computed over bytes.
#![tactic(auto)]
