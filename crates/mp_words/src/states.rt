//! The ANA states that have names, as a log page has them: NVM Express Base Specification 2.0, "Asymmetric Namespace
//! Access". The other states from 5 to 14 are reserved, and 0 stands for no path.

/// The path takes requests at full speed.
pub const OPTIMIZED: u8 = 1;

/// The path takes requests more slowly.
pub const NON_OPTIMIZED: u8 = 2;

/// The path takes no requests for now.
pub const INACCESSIBLE: u8 = 3;

/// The path will take no requests again.
pub const PERSISTENT_LOSS: u8 = 4;

/// The path is going from one state to another.
pub const CHANGE: u8 = 15;
