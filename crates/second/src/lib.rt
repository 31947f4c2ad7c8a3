// A second simulator and a second scheduler, written anew from documents 01 and 02, and the models, states and calls that they are tried on.
// They work on the bytes of an accepted model file, and share no code with the reader, the plain run and the scheduler.
#![tactic(auto)]

pub mod calls;
pub mod draw;
pub mod graph;
pub mod held;
pub mod issue;
pub mod layout;
mod log;
pub mod number;
mod places;
pub mod simulator;
pub mod start;
mod view;
