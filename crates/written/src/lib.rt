// The certificate that we write, over a graph and a formula: definitions and theorems only, no code.
#![tactic(auto)]
