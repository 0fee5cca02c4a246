// Numbers of the format (SPEC 1.2).
// It takes a field's bytes, or the eight bytes at a place, and gives the number that they denote or begin with, or says that there is none: `digits` digit by
// digit, `words` all eight bytes at once, over `packed`. The promises are equations with the model's `number`, of fields for any width up to 19 digits, of
// eight bytes for seven.
#![tactic(auto)]

pub mod digits;
pub mod packed;
pub mod words;
