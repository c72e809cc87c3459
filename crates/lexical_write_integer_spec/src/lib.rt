// The digits of a number: definitions and their laws.

#![tactic(auto)]
