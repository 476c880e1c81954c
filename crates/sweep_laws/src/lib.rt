// Laws alone: the segment tree, and that the sweep over a schedule makes the passes of the greedy rule.
#![tactic(auto)]
