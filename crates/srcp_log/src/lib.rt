//! What the log of a door over sockets says. The definitions say when a log is that of a door that does its work. The
//! lemmas say which further call or answer keeps that. The crate has no code and knows nothing of devices: a door
//! cites both, as `srcp_sockets` does.
#![tactic(auto)]
