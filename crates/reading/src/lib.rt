// How far a text has been read: definitions and their laws, no code.
#![tactic(auto)]
