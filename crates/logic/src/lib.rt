// The meaning of the formulas over paths, and the rules of proof: definitions and theorems only, no code.
#![tactic(auto)]
