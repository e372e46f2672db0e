// No code: the statements behind the demands and their proofs, above the calls, so that a check of the calls stays short.
#![tactic(auto)]
