// Any sequence of calls: what holds after every history. No code.
#![tactic(auto)]
