// Document 02, slip 2: a model held as numbers, for programs in C and Rust. Definitions; the functions are those of `export_judge`, `export_hold` and
// `export_numbers`.
#![tactic(auto)]
