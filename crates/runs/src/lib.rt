// Runs of calls: what is proved of opening and scans over any lists of them; no code.
#![tactic(auto)]
