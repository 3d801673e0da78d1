//! Tests of `srcp_sockets` and `srcp_host`, in a crate of their own, since both are then proved once.
#![tactic(auto)]

#[cfg(test)]
mod lingering;
#[cfg(test)]
mod loopback;
#[cfg(test)]
mod network;
#[cfg(test)]
mod record;
#[cfg(test)]
mod recorder;
#[cfg(test)]
mod scene;
#[cfg(test)]
mod serving;
#[cfg(test)]
mod slow;
