//! Two nodes side by side, place by place: whether they agree up to names and children, and which binders stand above
//! a child.
#![tactic(auto)]

pub mod outlines;
