//! Which version the programs are, as `--version` prints it. The file VERSION says the same, and `rt version` of each kit that proves them
//! ends in the same logic: `./check --prove` compares both.
#![tactic(auto)]

/// The version of the programs, and the logic that they are proved in. Kits of different days may share it.
pub const VERSION: &str = "1.16.0 (rattle logic dac8208d650f15bf)";
