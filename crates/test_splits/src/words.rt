//! What the programs write.

use std::fmt::Display;
use std::io::Print;

/// Writes a value. Where that fails, the program hasn't written what it must.
pub fn say<D: Display + Drop>(rt: &impl Print, value: D) {
    let _ = rt.print(value);
}

/// Writes a value and the end of a line.
pub fn say_line<D: Display + Drop>(rt: &impl Print, value: D) {
    let _ = rt.println(value);
}
