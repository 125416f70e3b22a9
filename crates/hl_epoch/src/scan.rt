ghost use Rattle.std.specs.Prelude.{◌≡◌, ℕ, ◌+◌, ◌^◌, ◌≤◌, IfOk, IfErr, vec_len, vec_capacity};
ghost use Rattle.hl_model.specs.Epochs.{Table};
ghost use Rattle.hl_model.specs.Replies.{unless_fault};
ghost use Rattle.hl_epoch.specs.Faults.{protected_fault};
ghost use Rattle.hl_epoch.specs.Table.{safe_of, opened, IsTable};

use crate::epochs::Epochs;
use hl_model::{EPOCH_LAST, Fault, filled};
use std::alloc::Global;
use std::marker::Model;

/// A table of epochs that is a row of slots. A call on a slot looks at that slot alone, `safe` at each.
#[derive(Drop)]
pub struct ScanTable {
    current: u64,
    // It has no room beside its slots.
    epochs: Vec<Option<u64>>,
    window: u64,
}

impl Model for ScanTable {
    ghost Value = { Table };

    ghost view = { λ a. record { current = a.current; epochs = a.epochs.items; window = a.window } };

    ghost invariant = { λ a.
        IsTable (record { current = a.current; epochs = a.epochs.items; window = a.window })
        × (vec_capacity a.epochs ≡ vec_len a.epochs) };
}

impl ScanTable {
    /// Returns a table that goes on at this current epoch, 1 to 2^62, with this many slots, 1 to 1,024, none
    /// protected, and this window, 1 to 4,096. At epoch 1 it is what `make` returns.
    ///
    /// Fault: `OutOfMemory` if memory is refused.
    pub fn resume(alloc: Global, slots: u64, window: u64, current: u64) -> Result<ScanTable, Fault>
        requires slots_least { 1 ≤ slots }
        requires slots_most { slots ≤ 1024 }
        requires window_least { 1 ≤ window }
        requires window_most { window ≤ 4096 }
        requires current_least { 1 ≤ current }
        requires current_most { current ≤ 2 ^ 62 }
        ensures ok { IfOk result (λ made. made ≡ opened slots window current) }
        ensures err { IfErr result (λ fault. fault ≡ Fault.OutOfMemory) }
        ensures valid { IfOk result IsTable }
    {
        Ok(ScanTable {
            current,
            epochs: filled(alloc, slots, None)?,
            window,
        })
    }

    // The place of slot t in the row, if the slot is protected.
    fn place_of(&self, t: u64) -> Result<usize, Fault>
        ensures { result ≡ unless_fault (protected_fault t self.now) t }
    {
        match self.epochs.get(t as usize) {
            None => Err(Fault::NoSlot),
            Some(None) => Err(Fault::NotProtected),
            Some(Some(_)) => Ok(t as usize),
        }
    }

    // The least epoch of a protected slot, or the current one if nobody is protected.
    fn least(&self) -> u64
        ensures value { result ≡ safe_of self.now + 1 }
        ensures valid { IsTable self.now }
    {
        let epochs = self.epochs.iter().filter_map(|epoch| *epoch);
        epochs.min().unwrap_or(self.current)
    }
}

impl Epochs for ScanTable {
    ghost table = { λ t. t };

    fn make(alloc: Global, slots: u64, window: u64) -> Result<ScanTable, Fault> {
        ScanTable::resume(alloc, slots, window, 1)
    }

    fn acquire(&mut self, t: u64) -> Result<(), Fault> {
        match self.epochs.get(t as usize) {
            None => Err(Fault::NoSlot),
            Some(Some(_)) => Err(Fault::Occupied),
            Some(None) => {
                self.epochs[t as usize] = Some(self.current);
                Ok(())
            }
        }
    }

    fn refresh(&mut self, t: u64) -> Result<(), Fault> {
        let place = self.place_of(t)?;
        self.epochs[place] = Some(self.current);
        Ok(())
    }

    fn release(&mut self, t: u64) -> Result<(), Fault> {
        let place = self.place_of(t)?;
        self.epochs[place] = None;
        Ok(())
    }

    fn bump(&mut self) -> Result<u64, Fault> {
        let ended = self.current;
        if ended == EPOCH_LAST {
            return Err(Fault::EpochsSpent);
        }
        self.current = ended + 1;
        Ok(ended)
    }

    fn current(&self) -> u64 {
        self.current
    }

    fn safe(&self) -> u64 {
        self.least() - 1
    }

    fn epoch_of(&self, t: u64) -> Option<u64> {
        *self.epochs.get(t as usize)?
    }
}
