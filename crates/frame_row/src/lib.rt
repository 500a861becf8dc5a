// A frame as a row of contents: the content of a field. Frame reader and frame writer stand on it.
#![tactic(auto)]

pub mod content;
