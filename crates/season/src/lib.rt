// The log as a whole: what is written for an input, and what its lines and answers say. No code.
#![tactic(auto)]
