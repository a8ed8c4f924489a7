// The three demands on the checker, each stated and shown as one theorem over the services' contracts: no code.
#![tactic(auto)]
