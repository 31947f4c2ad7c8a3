// What holds of conflict marks and distances. Laws alone: the definitions are those of tables.
#![tactic(auto)]
