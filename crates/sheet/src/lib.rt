// Document 01, "Cases": the sheet. Definitions only; crate `sheet_print` has the code.
#![tactic(auto)]
