// What is promised of every answer (specs/Demands), what the Rust does (specs/Rust), and the theorems about the rules (proofs). There is no
// code here.
#![tactic(auto)]
