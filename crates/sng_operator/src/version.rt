//! Which program this is.

/// The version, and the logic that proves it, whose sum `rt version` prints.
pub const VERSION: &str = "0.1.0, proved by rattle logic dac8208d650f15bf";
