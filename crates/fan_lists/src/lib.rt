//! Lists, searches and choices: words for edits of the first element that passes a test, and the
//! facts that the proofs of the other crates share. There is no code here.
#![tactic(auto)]
