// A table in finer ticks and in another order: theorems about verdict. No code.
#![tactic(auto)]
