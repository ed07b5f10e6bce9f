// No code: `proofs/` has the walk of a thin function over its step, and of a function that lends its records to its step, once for all of them.
#![tactic(auto)]
