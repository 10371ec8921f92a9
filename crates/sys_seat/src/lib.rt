// The seat of an actor in a system: what its commands do there. There is no code here.
#![tactic(auto)]
