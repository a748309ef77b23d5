//! Names of firms, accounts, instruments and commands: `Copy` values that hold their text in place.
//! A clause sees each as the list of its bytes.

pub mod account;
pub mod alloc;
pub mod firm;
pub mod instrument;

pub use account::AccountId;
pub use alloc::AllocId;
pub use firm::FirmId;
pub use instrument::InstrumentId;

/// The bytes that the name of a firm, an account or an instrument may have.
pub(crate) const NAME_LEN: usize = 16;

/// The least byte that may stand in such a name: behind the space.
pub(crate) const LOWEST_IN_NAME: u8 = 33;

/// The bytes that the id of a command may have.
pub(crate) const ID_LEN: usize = 32;

/// The least byte that may stand in an id: the space.
pub(crate) const LOWEST_IN_ID: u8 = 32;
