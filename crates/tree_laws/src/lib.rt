// Laws of the tree of layouts, in specs/: ancestors, children, leaves and their spans, and which jobs share.
#![tactic(auto)]
