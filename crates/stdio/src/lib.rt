// Standard input and standard output, call by call: what the program reads and writes, as far as a contract can say it.
#![tactic(auto)]

pub mod reading;
mod system;
pub mod writing;

pub use system::Errno;
