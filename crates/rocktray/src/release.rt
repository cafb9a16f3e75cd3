//! What a release was made of.

/// The commit. It has the length of one, since `tools/make_release.py` writes that of a release
/// over this text, in the object of the proved program; the program only prints it.
pub const COMMIT: &str = "none, since it was built from a checkout";

/// The logic of the kit that proves the program, as `rt version` prints it.
pub const LOGIC: &str = "dac8208d650f15bf";
