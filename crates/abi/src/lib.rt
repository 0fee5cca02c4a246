// Answers as C takes them: faults as numbers with their lines, and what the calls return as structs of numbers (SPEC 8.8).
#![tactic(auto)]

pub mod faults;
pub mod results;
