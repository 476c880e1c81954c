// Plain laws, in specs/: of tests, verdicts, lists, counts, places and sorting. Nothing here is of document 01.
#![tactic(auto)]
