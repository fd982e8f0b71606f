// What is printed of a job: its runs in file order, or its refusal.
// Relies on the text of a run, on its reduction and on the reader.

#![tactic(auto)]

pub mod jobs;
