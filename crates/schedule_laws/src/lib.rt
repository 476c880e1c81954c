// Laws of the schedule of a table, in specs/ and proofs/; there is no code here.
#![tactic(auto)]
