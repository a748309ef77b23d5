//! What an operator has said of a firm's connections, and what comes of it.

ghost use Rattle.std.specs.Prelude.{◌≡◌, Option, true, Some, None};
ghost use Rattle.gu_limits.specs.Said.{ending_of};
ghost use Rattle.gu_limits.specs.declared.ending.Ending.TheVariants.{Stops};

use crate::ending::Ending;

/// What an operator has said of a firm's connections.
#[derive(Clone, Copy, Debug)]
pub struct Said {
    /// Whether the server is to stop.
    pub stops: bool,
    /// Whether the firm isn't to be let in.
    pub refused: bool,
    /// How often its connections were to end.
    pub put_out: u64,
}

impl Said {
    /// Nothing.
    pub const NOTHING: Said = Said {
        stops: false,
        refused: false,
        put_out: 0,
    };

    /// Why a connection ends, and no call is made on it any more, if so it is: one that came in
    /// when the firm's had been put out so often.
    pub fn ending(self, before: u64) -> Option<Ending>
        ensures value { result ≡ ending_of self before }
        ensures stops { self.stops ≡ true → result ≡ Some Stops }
    {
        if self.stops {
            Some(Ending::Stops)
        } else if self.refused {
            Some(Ending::Refused)
        } else if before < self.put_out {
            Some(Ending::PutOut)
        } else {
            None
        }
    }
}
