// The characters of a run: its sheet and its findings. Relies on the writers of `characters` and on the types of a reduced run.

#![tactic(auto)]

pub mod runs;
pub mod sheets;
