// What a refused line, file, writing, purpose and number are, and that each call refuses exactly so. There is no code here.
#![tactic(auto)]
