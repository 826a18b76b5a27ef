// What an allowed line is, and that reading one line and finding one field answer exactly that. There is no code here.
#![tactic(auto)]
