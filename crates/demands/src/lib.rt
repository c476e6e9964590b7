// Demands 2 and 3 about the analysis, and the starred recipes: theorems, no code.
#![tactic(auto)]
