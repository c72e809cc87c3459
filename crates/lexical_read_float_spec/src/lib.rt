// What reading a float is: definitions and laws, and no code.

#![tactic(auto)]
