// A record that is lent by `&mut` and moved on in place meets its contract. There is no code here.
#![tactic(auto)]
