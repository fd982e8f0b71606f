// A condition of a rule and a certificate day, each as bytes and as text. Relies on the writer of `characters`, and on the words of the
// rules.

#![tactic(auto)]

pub mod bytes;
pub mod texts;
