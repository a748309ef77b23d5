//! Journals in memory: of a book, and back.

use gu_base::{Entry, Memory};
use gu_book::{Book, HashKey};
use gu_image::Image;
use gu_journal::{HouseDigest, Journal, Nothing, Recovered, Silent, Unrecovered, recover};
use gu_parties::House;
use gu_roll::PinnedHouse;
use std::alloc::Global;

/// When the first group of a journal is written.
const FIRST: &[u8] = b"20260302-09:00:00.000";

/// When the others are.
const LATER: &[u8] = b"20260302-10:30:00.000";

/// The key under which recovered books find their ids.
pub(crate) const KEY: u128 = 0x6b65_795f_6f66_5f74_6573_745f_6a6f_7572;

/// The table of a house file, and its digest.
pub(crate) fn house_of(alloc: Global, file: &[u8]) -> Option<PinnedHouse> {
    match House::parse(alloc, file) {
        Ok(house) => Some(PinnedHouse {
            house,
            pin: HouseDigest::of(file),
        }),
        Err(_) => None,
    }
}

/// The book of the journal in these bytes, and the journal. It is told why there is none.
pub(crate) fn recovered(
    rt: &impl Print,
    alloc: Global,
    file: &[u8],
    bytes: Vec<u8>,
) -> Option<Recovered<Image>> {
    let PinnedHouse { house, pin } = house_of(alloc, file)?;
    match recover(
        alloc,
        Image::new(bytes),
        house,
        HashKey::new(KEY),
        &pin,
        FIRST,
        &mut Silent,
    ) {
        Ok(found) => Some(found),
        Err(Unrecovered { disk, error }) => {
            drop(disk);
            let _ = rt.println(error);
            None
        }
    }
}

/// Commits entries, so many at a time.
fn commit_all(journal: &mut Journal<Image>, entries: &[Entry], most: usize) -> bool {
    let mut moment = FIRST;
    for group in entries.chunks(most.max(1)) {
        if journal.commit(moment, group, &mut Nothing).is_err() {
            return false;
        }
        moment = LATER;
    }
    true
}

/// The file of a journal of a book under a house file, with so many entries in a group.
pub(crate) fn journal_of(
    rt: &impl Print,
    alloc: Global,
    file: &[u8],
    book: &Book,
    most: usize,
) -> Option<Vec<u8>> {
    let Recovered {
        book: opened,
        mut journal,
    } = recovered(rt, alloc, file, Vec::new(alloc))?;
    let have = opened.history().len();
    drop(opened);
    let written = match book.history().get(have..) {
        Some(entries) => commit_all(&mut journal, entries, most),
        None => false,
    };
    let bytes = journal.into_disk().into_bytes();
    if written {
        Some(bytes)
    } else {
        drop(bytes);
        None
    }
}
