#![tactic(auto)]

// The rules of section 3.12 and of the refusals, as definitions in specs/. There is no code here:
// every crate above cites these definitions in its contracts.
