//! What a rider does, by address, and what that leaves there.
ghost use Rattle.std.specs.Prelude.{◌≡◌};
ghost use Rattle.hl_traces.specs.OneTrace.{leaves_at};

/// What a rider did, as whoever uses a log tells it: by addresses and numbers alone.
pub enum Act {
    /// It placed a record of so many words at this address.
    Placed {
        address: u64,
        words: u64,
    },
    /// It stored the value at the address.
    Stored {
        address: u64,
        value: u64,
    },
    /// It loaded the value at the address.
    Loaded {
        address: u64,
        value: u64,
    },
    /// It found the one value at the address and stored the other there, in one step.
    Changed {
        address: u64,
        found: u64,
        value: u64,
    },
    /// It made a call under the lock, which left the one list with so many steps.
    Met {
        steps: u64,
    },
}

impl Act {
    /// What a word at an address is after this act, if it was `word` before: what the act stored at that very address, or
    /// else `word`. So whoever keeps a list of acts computes by this what each load should find, and what memory and device
    /// should hold: one after another, the earliest first, from 0 on.
    pub fn leaves(&self, address: u64, word: u64) -> u64
        ensures { result ≡ leaves_at address self.now word }
    {
        match self {
            Act::Stored { address: at, value } if *at == address => *value,
            Act::Changed {
                address: at,
                found: _,
                value,
            } if *at == address => *value,
            _ => word,
        }
    }
}
