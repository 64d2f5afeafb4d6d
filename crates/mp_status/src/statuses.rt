//! The parts of a status that decide what follows: NVM Express Base Specification 2.0, "Status Field Definition". A
//! status stands without its phase tag: the code in bits 7 to 0, the type in bits 10 to 8, the retry delay in bits 12
//! to 11, more in bit 13, and do-not-retry in bit 14.

/// The command succeeded.
pub const SUCCESS: u16 = 0x000;

/// The status code type of a path's statuses, in bits 10 to 8.
pub const PATH_RELATED: u16 = 3;

/// The namespace is lost on this path for good: type and code, in bits 10 to 0.
pub const PERSISTENT_LOSS: u16 = 0x301;

/// The namespace is inaccessible on this path for now: type and code, in bits 10 to 0.
pub const INACCESSIBLE: u16 = 0x302;

/// The path is going from one ANA state to another: type and code, in bits 10 to 0.
pub const TRANSITION: u16 = 0x303;

/// How many retries are made on one path: the attempt after them completes, however it ends.
pub const MOST_RETRIES: u8 = 5;
