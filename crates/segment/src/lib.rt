// A segment of the search: all parts of ⊗ and all conditions that share one window and one scope.
#![tactic(auto)]

pub mod tasks;
