//! Tests of `srcp_rules`, in a crate of their own, since `srcp_rules` is then proved once.
#![tactic(auto)]

#[cfg(test)]
mod keepers;
#[cfg(test)]
mod layouts;
#[cfg(test)]
mod served;
#[cfg(test)]
mod told;
#[cfg(test)]
mod weights;
