// The nodes of a sheet. They are also places in the array of its values, so they are usize.
pub const MODE: usize = 1;

pub const BARRIER: usize = 2;

pub const FLUSH: usize = 3;

pub const DISCARD: usize = 4;

pub const DISCARD_SECURE: usize = 5;

pub const SECTOR_SIZE: usize = 6;

pub const SECTORS: usize = 7;

pub const PROTOCOL: usize = 8;

pub const RING_PAGE_ORDER: usize = 9;

// The places of that array. There is no node 0.
pub const PLACES: usize = RING_PAGE_ORDER + 1;
