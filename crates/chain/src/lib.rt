// The bytes of a plan, written and read: document 01, 'Feasible chains'. Nothing here is a public call: `writing::write_plan` serves the planner,
// and `reading` the crates that are given a plan, which meet what they require.

#![tactic(auto)]

pub mod reading;
pub mod writing;
