// The paper's sums as tables, and theorems over them: definitions and proofs alone. The program `worked` runs the same sums.
#![tactic(auto)]
