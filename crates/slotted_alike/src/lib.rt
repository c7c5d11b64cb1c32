//! Two e-nodes that agree up to their children, and the equations of these. A step of congruence rests on them.
#![tactic(auto)]

pub mod alike;
