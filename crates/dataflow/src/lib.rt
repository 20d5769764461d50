#![tactic(auto)]

// Definitions and laws of the dataflow. No function.
