// Trees, and reading a serialized tree with references: definitions and laws alone. `read_call` has the call.
#![tactic(auto)]
