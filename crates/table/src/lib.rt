#![tactic(auto)]

// The bench table as a theorem; no function.
