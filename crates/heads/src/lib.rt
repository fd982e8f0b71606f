// The records of a job file that name things, certificates and the headers of runs: what each holds, and the trouble met in it.
// A record's trouble is looked at in order of place, so that the first one met is the answer. Relies on the identities in them, on the
// numbers and the trouble of fields and on the kinds of reading.

#![tactic(auto)]

pub mod certificate;
pub mod header;
