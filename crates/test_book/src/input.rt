//! What the program is given: a house file, or all of standard input.

use crate::memory::tell_refused;
use gu_parties::{Cause, House};
use std::alloc::Global;
use std::io::Read;

/// The house of this text. Where no memory is found it is read once more.
pub(crate) fn read_house(rt: &HostRuntime, alloc: Global, text: &[u8]) -> Option<House> {
    match House::parse(alloc, text) {
        Ok(house) => Some(house),
        Err(fault) if fault.cause == Cause::Memory => {
            tell_refused(rt);
            House::parse(alloc, text).ok()
        }
        Err(_) => None,
    }
}

/// All of standard input. `None` where it can't be read, or memory is refused twice.
pub(crate) fn read_input(rt: &HostRuntime, alloc: Global) -> Option<Vec<u8>> {
    let mut input = Vec::new(alloc);
    // None of what was read is lost where memory is asked for once more.
    for _again in 0..2 {
        match rt.reader().read_to_end(&mut input) {
            Ok(_) => return Some(input),
            Err(_) => tell_refused(rt),
        }
    }
    None
}
