// Lists of numbers and tables with numbered rows: only their definitions and laws, for every `match` on a number.

#![tactic(auto)]
