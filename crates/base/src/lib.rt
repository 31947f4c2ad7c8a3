// Definitions and laws that belong to no layer. No types and no functions.
#![tactic(auto)]
