//! The greatest tag that may stand in a value, by what the value is for.

/// Of any value: that of big maps.
pub const ANY_VALUE: u8 = 0x12;

/// Of a value that an operation carries or a failure raises, which has no big map.
pub const PASSED_VALUE: u8 = 0x11;

/// Of the key of a cell, which has no list, set, map or big map.
pub const KEY_VALUE: u8 = 0x0e;
