// How far from zero an accepted job's numbers can be: specs/ has each bound. No code.
#![tactic(auto)]
