//! Tests of `srcp_core` and `srcp_feed`, in a crate of their own, since those are then proved once.
#![tactic(auto)]

#[cfg(test)]
mod calls;
#[cfg(test)]
mod events;
#[cfg(test)]
mod feeds;
#[cfg(test)]
mod first_moment;
#[cfg(test)]
mod fixture;
#[cfg(test)]
mod last_id;
#[cfg(test)]
mod memory;
#[cfg(test)]
mod mirrors;
#[cfg(test)]
mod places;
#[cfg(test)]
mod runs;
