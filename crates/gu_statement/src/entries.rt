//! The lines of entries, and of the calls that came to nothing.
ghost use Rattle.std.specs.Prelude.{◌≡◌, option_and_then};
ghost use Rattle.gu_base.specs.History.{records};
ghost use Rattle.gu_base.specs.Nodes.{node_of};
ghost use Rattle.gu_statement.specs.Control.{is_shown};
ghost use Rattle.gu_statement.specs.Lines.{pair_of, takes, shows_account};

use crate::branches::number_of_place;
use crate::entry_text::push_entry;
use crate::lines::{EntryLine, RefusedLine};
use crate::pieces::{go_on, made};
use crate::refused_text::push_refused;
use crate::sheet::Sheet;
use crate::sight::{deal_seen, involves, node_at, pair_of};
use gu_base::{AllocId, Command, Deal, Entry, FirmId, NodeName, Number};
use gu_batch::{RunError, Sink};

/// Whether a command is a Trade for the firm.
pub(crate) fn is_trade_for(firm: &FirmId, command: &Command) -> bool {
    match command {
        Command::Trade { firm: owner, .. } => *owner == *firm,
        _ => false,
    }
}

impl<'a> Sheet<'a> {
    /// Whether an entry is in the statement.
    pub(crate) fn shows(&self, entry: &Entry) -> bool
        ensures { result ≡ is_shown self.now.book.now.house self.now.book.now.history
            self.now.whose entry.now.firm entry.now.command }
    {
        match &self.whose {
            None => true,
            Some(firm) => {
                let house = self.book.house().house();
                involves(&house, self.entries(), firm, &entry.firm, &entry.command)
            }
        }
    }

    /// The id of an entry: of a firm's own command, and of a Trade for it.
    fn id_seen(&self, entry: &Entry) -> Option<AllocId> {
        match &self.whose {
            None => Some(entry.id),
            Some(firm) => {
                if entry.firm == *firm || is_trade_for(firm, &entry.command) {
                    Some(entry.id)
                } else {
                    None
                }
            }
        }
    }

    /// Whether the account of a Claim of this node is shown: to its taker.
    fn takes(&self, name: &NodeName) -> bool
        ensures { result ≡ takes self.now.whose (option_and_then (λ x. pair_of x.kind)
            (node_of (records self.now.book.now.history) name.now)) }
    {
        match pair_of(&node_at(self.entries(), name)) {
            Some((_, taker)) => self.is_of(&taker),
            None => self.whose.is_none(),
        }
    }

    /// The instrument and the side that an entry's line has: for the house those of a Trade alone.
    fn deal_shown(&self, command: &Command) -> Option<Deal> {
        match &self.whose {
            None => Deal::in_command(command),
            Some(_) => deal_seen(self.entries(), command),
        }
    }

    /// The line of the entry at this place.
    fn entry_line(&self, place: usize, number: Number, entry: &'a Entry) -> EntryLine<'a>
        ensures { result.shows_account ≡ shows_account self.now.whose self.now.book.now.history
            entry.now.command }
    {
        let shows_account = match &entry.command {
            Command::Claim { node, .. } => self.takes(node),
            _ => false,
        };
        EntryLine {
            number,
            firm: entry.firm,
            id: self.id_seen(entry),
            status: entry.status,
            command: &entry.command,
            parts_of: self.whose,
            shows_account,
            deal: self.deal_shown(&entry.command),
            reversed_by: self.branches.reversal(number),
            time: self.times.at(place),
        }
    }

    /// Writes the lines of the entries.
    pub(crate) fn write_entries<W: Sink>(
        &self,
        out: &mut Vec<u8>,
        writer: &mut W,
    ) -> Result<(), RunError> {
        let entries = self.entries();
        for place in 0..entries.len() {
            let entry = &entries[place];
            if self.shows(entry) {
                if let Some(number) = number_of_place(place) {
                    let line = self.entry_line(place, number, entry);
                    made(push_entry(self.alloc, out, &line))?;
                    go_on(out, writer)?;
                }
            }
        }
        Ok(())
    }

    /// Writes the lines of the calls that came to nothing.
    pub(crate) fn write_refused<W: Sink>(
        &self,
        out: &mut Vec<u8>,
        writer: &mut W,
    ) -> Result<(), RunError> {
        let Some(refused) = self.refused else {
            return Ok(());
        };
        let before = refused.count().saturating_sub(refused.kept() as u64);
        for place in 0..refused.kept() {
            if let Some(call) = refused.at(place) {
                let line = RefusedLine {
                    number: before.saturating_add(place as u64 + 1),
                    call: *call,
                    shows_place: self.whose.is_none(),
                };
                made(push_refused(self.alloc, out, &line))?;
                go_on(out, writer)?;
            }
        }
        Ok(())
    }
}
