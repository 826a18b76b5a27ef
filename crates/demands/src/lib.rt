// The customer's three demands as theorems over what the entry points promise. There is no code here.
#![tactic(auto)]
