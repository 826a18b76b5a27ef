// Which keying slips the check characters stop: theorems over what checking and issuing answer. There is no code here.
#![tactic(auto)]
