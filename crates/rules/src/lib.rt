// What is right (specs/Document01), what the chip does (specs/Manual), and what the two documents state apart from what is computed
// (specs/Stated, proofs/Stated). There is no code here.
#![tactic(auto)]
