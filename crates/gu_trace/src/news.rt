//! Whom new entries concern.
ghost use Rattle.std.specs.Prelude.{◌≡◌, ◌==◌, ◌&&◌, ◌||◌, ℕ, List, bytes_eq, IfOk, OnOk};
ghost use Rattle.std.specs.List.{list_any};
ghost use Rattle.gu_trace.specs.Concerned.{is_among};
ghost use Rattle.gu_trace.specs.News.{is_news, is_told};

use crate::concern::{Concerned, firms_concerned};
use gu_base::{FirmId, Memory, Number, Part};
use gu_book::Book;
use std::alloc::Global;

/// That an entry of this number concerns a firm.
#[derive(Clone, Copy)]
pub struct News {
    pub firm: FirmId,
    pub number: Number,
}

/// Notes that the entry of this number concerns a firm.
fn note(news: &mut Vec<News>, number: Number, firm: &FirmId) -> Result<(), Memory>
    ensures { OnOk result ((f : List ℕ) (n : ℕ) → is_told news.new.items f n
        ≡ (is_told news.old.items f n || ((number == n) && bytes_eq firm.now f))) }
{
    news.push(News {
        firm: *firm,
        number,
    })?;
    Ok(())
}

/// Notes that the entry of this number concerns each firm that a part is for.
fn note_parts(news: &mut Vec<News>, number: Number, parts: &[Part]) -> Result<(), Memory>
    ensures { OnOk result ((f : List ℕ) (n : ℕ) → is_told news.new.items f n
        ≡ (is_told news.old.items f n
        || ((number == n) && list_any (λ p. bytes_eq p.firm f) parts.now))) }
{
    for part in parts {
        note(news, number, &part.firm)?;
    }
    Ok(())
}

/// Notes that the entry of this number concerns these firms.
fn note_all(news: &mut Vec<News>, number: Number, concerned: &Concerned<'_>) -> Result<(), Memory>
    ensures { OnOk result ((f : List ℕ) (n : ℕ) → is_told news.new.items f n
        ≡ (is_told news.old.items f n || ((number == n) && is_among f concerned.now))) }
{
    match concerned {
        Concerned::Nobody => Ok(()),
        Concerned::Two(one, other) => {
            note(news, number, one)?;
            note(news, number, other)
        }
        Concerned::Parts(by, parts) => {
            note(news, number, by)?;
            note_parts(news, number, parts)
        }
    }
}

/// The firms that each entry above a number concerns, some of them maybe twice: found without a
/// look at the others.
///
/// # Errors
///
/// `Memory` where a growth was refused.
pub fn news_above(alloc: Global, book: &Book, above: u32) -> Result<Vec<News>, Memory>
    ensures { IfOk result (λ v. (f : List ℕ) (n : ℕ) → is_told v.items f n
        ≡ is_news book.now.house.house book.now.history above f n) }
{
    let entries = book.history();
    let house = book.house().house();
    let mut news = Vec::new(alloc);
    for place in above as usize..entries.len() {
        let e = &entries[place];
        let firms = firms_concerned(&house, entries, &e.firm, &e.command);
        note_all(&mut news, Number::at_place(place), &firms)?;
    }
    Ok(news)
}
