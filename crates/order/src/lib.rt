// Demand 3: every run behaves as one word served one call at a time. Only theorems: the functions that carry them stand in `promises`.
#![tactic(auto)]
