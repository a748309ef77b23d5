//! The book of a house in its opening.

ghost use Rattle.std.specs.Prelude.{◌≡◌, IfOk, OnOk};
ghost use Rattle.gu_base.specs.Runs.{opening_history};
ghost use Rattle.gu_book.specs.Seen.{stored};

use gu_base::Memory;
use gu_book::{Book, HashKey};
use gu_parties::House;
use std::alloc::{AllocError, Global};
use std::mem;

/// The opening book of a house, which finds its ids under this key.
pub(crate) fn opening_book(
    alloc: Global,
    house: House,
    key: HashKey,
) -> Result<Book, (House, Memory)>
    ensures opened { IfOk result (λ b. stored b
        ≡ record { house = house; history = opening_history house }) }
{
    match Book::open(alloc, house) {
        Ok(book) => {
            let mut book = book;
            book.rekey(key);
            Ok(book)
        }
        Err(refused) => Err(refused),
    }
}

/// Puts the opening book of the same house in the place of a book.
pub(crate) fn reopen(alloc: Global, book: &mut Book, key: HashKey) -> Result<(), Memory>
    ensures opened { OnOk result (stored book.new ≡ record {
      house = (stored book.old).house;
      history = opening_history (stored book.old).house;
    }) }
{
    let house = book.house().copy(alloc)?;
    match opening_book(alloc, house, key) {
        Ok(opened) => {
            let old = mem::replace(book, opened);
            drop(old);
            Ok(())
        }
        Err((house, _)) => {
            drop(house);
            Err(AllocError)
        }
    }
}
