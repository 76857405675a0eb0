// What a job's standard form promises, as theorems in proofs/; there is no code here. The definitions are in model's specs, StandardForm.
#![tactic(auto)]
