// The bench (document 01, 'The bench …'): lines of text in, lines of text out, over one preprocessor. It is read cell by cell, so that a line
// may be longer than any buffer.
#![tactic(auto)]

mod call;
pub mod line;
pub mod step;
