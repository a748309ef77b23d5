//! Reading a house file and copying its house, and what is then written.

use crate::small::tell_names;
use crate::table::{same_answers, same_table, table};
use gu_base::Memory;
use gu_parties::{Cause, House, HouseError};
use std::alloc::Global;

/// What is to be written of a house.
#[derive(Clone, Copy)]
pub(crate) enum Wanted {
    /// The table of its copy, if the copy tells what it tells.
    Table,
    /// What it answers, and what its copy answers.
    Names,
    /// That the file has no fault.
    Fault,
}

/// Reads a house. Where memory lacks at one of the lines 3 to 6 of a file, which add names, it is
/// read once more.
fn read(alloc: Global, text: &[u8]) -> Result<House, HouseError> {
    match House::parse(alloc, text) {
        Ok(house) => Ok(house),
        Err(fault) => {
            if fault.cause == Cause::Memory && 3 <= fault.line && fault.line <= 6 {
                House::parse(alloc, text)
            } else {
                Err(fault)
            }
        }
    }
}

/// Copies a house, once more where memory lacks.
fn copied(alloc: Global, house: &House) -> Result<House, Memory> {
    match house.copy(alloc) {
        Ok(copy) => Ok(copy),
        Err(_) => house.copy(alloc),
    }
}

/// Writes a copy of a table, or that it differs.
fn tell_table(rt: &impl Print, alloc: Global, house: &House, copy: &House) -> bool {
    if same_table(alloc, house, copy) && same_answers(alloc, house, copy) {
        rt.print(table(alloc, copy)).is_ok()
    } else {
        rt.println("the copy differs").is_ok()
    }
}

/// Writes what is wanted of a house and its copy.
fn tell_both(rt: &impl Print, alloc: Global, house: &House, copy: &House, wanted: Wanted) -> bool {
    match wanted {
        Wanted::Table => tell_table(rt, alloc, house, copy),
        Wanted::Names => {
            tell_names(rt, house) && rt.println("the copy").is_ok() && tell_names(rt, copy)
        }
        Wanted::Fault => rt.println("no fault").is_ok(),
    }
}

/// Writes what is wanted of a house, and of a copy of it. Whether all went well.
fn tell_house(rt: &impl Print, alloc: Global, house: &House, wanted: Wanted) -> bool {
    match copied(alloc, house) {
        Ok(copy) => tell_both(rt, alloc, house, &copy, wanted),
        Err(_) => false,
    }
}

/// Writes the first fault of a house file, or what is wanted of its house. Whether all went well.
pub(crate) fn tell(rt: &impl Print, alloc: Global, text: &[u8], wanted: Wanted) -> bool {
    match read(alloc, text) {
        Ok(house) => tell_house(rt, alloc, &house, wanted),
        Err(fault) => rt.println(fault).is_ok(),
    }
}
