// The plain run's state as words, for plain_core: definitions, and laws by which the words stand for a place of the run.
#![tactic(auto)]
