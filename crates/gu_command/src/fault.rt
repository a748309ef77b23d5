//! Why the program ends otherwise than well.

ghost use Rattle.std.specs.Prelude.{◌≡◌, IsTrue};
ghost use Rattle.gu_command.specs.Faults.{is_keep_fault};

use crate::errors::{KeepError, ServiceError};
use gu_base::Memory;
use gu_batch::RunError;
use gu_parties::HouseError;
use std::alloc::{AllocFailed, Global};
use std::fmt::Display;
use thiserror::Error;

/// A fault of the program, in one line for people.
#[derive(Debug, Drop, Error)]
pub enum Fault {
    /// The command line isn't one that the program knows. The text is the parser's, without its
    /// last line end.
    #[error("{0}")]
    Usage(String),
    /// The house file isn't there, or can't be read to its end.
    #[error("cannot read house file")]
    HouseFile,
    /// A line of the house file is at fault: its number, and the cause.
    #[error("{0}")]
    HouseLine(HouseError),
    /// The house file has no firm of this name.
    #[error("no firm {0}")]
    NoFirm(String),
    /// The server couldn't listen, or ended before all its connections did.
    #[error("{0}")]
    Service(ServiceError),
    /// The journal can't be opened, isn't one of this house, or failed. The text says which file,
    /// and what is wrong with it.
    #[error("{0}")]
    Journal(String),
    /// The server of a kept book ended before all its connections did.
    #[error("{0}")]
    Keep(KeepError),
    /// The run of the batch ended before standard input did; where memory ran out, also before or
    /// behind it.
    #[error("{0}")]
    Run(RunError),
}

impl Fault {
    ghost use Rattle.gu_command.specs.Faults.{status_of};

    /// The status that the program ends with: 2 where the command line is at fault, else 1.
    pub fn status(&self) -> u8
        ensures { result ≡ status_of self.now }
    {
        match self {
            Fault::Usage(_) => 2,
            _ => 1,
        }
    }
}

/// The fault whose text is this path and the cause, or want of memory for the text.
pub fn fault_at<C: Display + Drop>(alloc: Global, path: &str, cause: C) -> Fault
    ensures { IsTrue (is_keep_fault result) }
{
    match format!(in alloc; "{path}: {cause}") {
        Ok(text) => Fault::Journal(text),
        Err(_) => Fault::Keep(KeepError::Memory),
    }
}

impl From<RunError> for Fault {
    ghost use Rattle.gu_command.specs.declared.fault.Fault.TheVariants.{Run};

    ghost from_gives = { λ error fault. fault ≡ Run error };

    fn from(error: RunError) -> Fault {
        Fault::Run(error)
    }
}

impl From<ServiceError> for Fault {
    ghost use Rattle.gu_command.specs.declared.fault.Fault.TheVariants.{Service};

    ghost from_gives = { λ error fault. fault ≡ Service error };

    fn from(error: ServiceError) -> Fault {
        Fault::Service(error)
    }
}

impl From<Memory> for Fault {
    ghost use Rattle.gu_command.specs.Faults.{no_memory};

    ghost from_gives = { λ _ fault. fault ≡ no_memory };

    fn from(_error: Memory) -> Fault {
        Fault::Run(RunError::Memory)
    }
}

impl<T: Drop> From<AllocFailed<T>> for Fault {
    ghost use Rattle.gu_command.specs.Faults.{no_memory};

    ghost from_gives = { λ _ fault. fault ≡ no_memory };

    fn from(_error: AllocFailed<T>) -> Fault {
        Fault::Run(RunError::Memory)
    }
}
