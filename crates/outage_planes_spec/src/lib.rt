// What a packed table is: definitions and their laws.

#![tactic(auto)]
