// What holds along the plain run. Laws alone: the definitions are those of plain.
#![tactic(auto)]
