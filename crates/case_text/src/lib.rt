// What the programs share that run cases, one a line: reading a case's text, and writing its answer.
#![tactic(auto)]

pub mod buffer;
pub mod case;
pub mod hex;
pub mod input;
pub mod show;
pub mod text;
