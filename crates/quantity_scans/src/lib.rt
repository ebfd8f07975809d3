// The texts of numbers that scans give: what is proved of them; no code.
#![tactic(auto)]
