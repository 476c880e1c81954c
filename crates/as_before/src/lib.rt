// Laws of what was read and printed before 2026-04, in specs/ and proofs/; there is no code here.
#![tactic(auto)]
