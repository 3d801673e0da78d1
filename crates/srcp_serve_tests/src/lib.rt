//! Tests of `srcp_serve`, in a crate of their own, since `srcp_serve` is then proved once.
#![tactic(auto)]

#[cfg(test)]
mod script_door;
#[cfg(test)]
mod serving;
#[cfg(test)]
mod trace_turns;
