// The check's definition one turn at a time, and what a list of findings shows of it. Theory only.
#![tactic(auto)]
