// The law that both ends of what two jobs share reach the plan, in specs/ and proofs/; there is no code here.
#![tactic(auto)]
