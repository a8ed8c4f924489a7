// The graph of stages and the formulas, with the bytes taken away: definitions only, no code.
#![tactic(auto)]
