#![tactic(auto)]

// Definitions and laws on lists; no function.
