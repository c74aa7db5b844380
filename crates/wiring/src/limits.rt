// How large a wiring may be.
pub const MAX_NODES: usize = 64;

pub const MAX_REGISTERS: usize = 16;

pub const MAX_COEFFICIENTS: usize = 17;
