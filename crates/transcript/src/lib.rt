// The transcript of a list of calls that `replayrun` prints. Definitions only; crate `transcript_print` has the code.
#![tactic(auto)]
