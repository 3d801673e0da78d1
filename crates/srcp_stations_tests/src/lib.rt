//! Tests of `srcp_stations`, in a crate of their own, since `srcp_stations` is then proved once.
#![tactic(auto)]

#[cfg(test)]
mod rows;
