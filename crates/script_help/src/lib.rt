//! Explanations of refused script lines: a caret under the invalid word, and what would be valid there.
//!
//! What would be valid is asked of the parser itself: a word is suggested only if a line with it parses. So none of
//! the grammar is repeated here, only lists of words that are worth asking for. `causes` has the text for each cause
//! and the section to read.
//!
//! `KeptSource` is a source that keeps what it returns, so that a line can be shown after its script was refused.
#![tactic(auto)]

mod asking;
mod causes;
mod explaining;
mod kept;
mod line;
mod numbers;
mod place;
mod shown;
mod wanted;
mod words;

pub use explaining::explanation;
pub use kept::KeptSource;
