// Laws on numbers, tests and lists that speak of no clock: each is stated once, and cited from above. There is no code here.
#![tactic(auto)]
