// What the whole library promises over any run of its calls. Theorems only: see specs/.
#![tactic(auto)]
