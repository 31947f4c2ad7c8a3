// What holds of a model that is written: read back it is the same, and a file that is accepted is written again byte by byte. Laws alone.
#![tactic(auto)]
