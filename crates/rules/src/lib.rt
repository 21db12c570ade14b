// No code: specs/ has document 01 as definitions and demand 3 as statements; proofs/ has what is shown of them.
#![tactic(auto)]
