#![tactic(auto)]

// Rows of step calls: demand 3. There is no code here; the theorems are in specs/.
