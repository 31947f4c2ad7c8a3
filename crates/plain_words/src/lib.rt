// A model as words, for the plain run: rows of 34 words, how a segment closes, its next segments and its 32 statements. Row s has segment s; eight words
// for each thread, its ports, stand behind the 64 segments; row 72 + k is thread k's own, for a segment that names a port, after mapping.
// Definitions and laws; the functions are those of `plain_pack`, `plain_execute` and `plain_rows`.
#![tactic(auto)]
