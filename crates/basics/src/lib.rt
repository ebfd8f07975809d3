// No code: definitions and laws that every layer above uses.
#![tactic(auto)]
