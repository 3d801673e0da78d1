//! Tests of `srcp_tool` and `srcp_script`, in a crate of their own, since those are then proved once.
#![tactic(auto)]

#[cfg(test)]
mod arguments;
#[cfg(test)]
mod interlocking;
#[cfg(test)]
mod keepers;
#[cfg(test)]
mod memory_io;
#[cfg(test)]
mod streams;
