#![tactic(auto)]

// Which of two positions of a line is displayed to the left. There is no code here: specs/ states it of the
// definitions of L1 and L2, proofs/ proves it.
