#![tactic(auto)]

// Words on lists, numbers and truth values, and their laws. There is no rule of the standard and no code here: every
// crate above says its definitions and contracts in these words.
