// No code: what each call of tag and reader does, as definitions (specs/) and laws (proofs/).
#![tactic(auto)]
