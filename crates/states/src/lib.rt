// No code: specs/ has document 01's sound state as definitions; proofs/ has what is shown of such states and of a move from one to the next.
#![tactic(auto)]
