// The host's result of a request that its disk does not support (rule 6.10).
pub const NOT_SUPPORTED: i64 = -95;
