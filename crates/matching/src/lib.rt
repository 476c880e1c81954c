// Laws of the matching rule, of the running order and of rival plans, in specs/ and proofs/; there is no code here.
#![tactic(auto)]
