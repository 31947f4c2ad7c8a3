// What holds of a file that is read, record by record. Laws alone: the definitions are those of reader.
#![tactic(auto)]
