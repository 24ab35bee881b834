// The grant bytes that allow something: the backend may read the frame, or read and write it.
pub const READ: u8 = 1;

pub const READ_WRITE: u8 = 2;
