// Numbers and lines as bytes, to the front of an output (SPEC 6.2): a number's digits, and a line of a tag and numbers.
// What is written, and its length, are the model's `decimal`, `fields` and `print_line`; bytes beyond keep their content.
#![tactic(auto)]

pub mod decimals;
pub mod line;
