// No code: the laws of loops, in specs/.
#![tactic(auto)]
