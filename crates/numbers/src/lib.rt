// No code: the definitions and laws of searching, counting and summing, in specs/.
#![tactic(auto)]
