// What an allowed file is, and the judge exactly by it: theorems over what judging answers. There is no code here.
#![tactic(auto)]
