// The f32 steps of pll.rs as IEEE 754 operations and over whole numbers, and that the two are the same. There is no code here.
#![tactic(auto)]
