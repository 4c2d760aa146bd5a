// What a sheet promises of the scheduler: theorems about verdict, fresh and step together. No code.
#![tactic(auto)]
