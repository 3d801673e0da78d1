//! The limits of a configuration, beside those of `srcp_info`.

/// The greatest port to listen on.
pub(crate) const GREATEST_PORT: u32 = 65535;

/// The port to listen on if a configuration names none.
pub(crate) const DEFAULT_PORT: u32 = 4303;
