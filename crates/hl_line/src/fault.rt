ghost use Rattle.std.specs.Prelude.{◌≡◌, ◌≤◌, length};
ghost use Rattle.hl_line.specs.Replies.{name_of};

use hl_model::Fault;

/// Returns the name of a fault, as its line shows it.
pub(crate) fn name(fault: Fault) -> &'static str
    ensures value { result.now ≡ name_of fault }
    ensures short { length result.now ≤ 12 }
{
    match fault {
        Fault::NoSlot => "NoSlot",
        Fault::Occupied => "Occupied",
        Fault::NotProtected => "NotProtected",
        Fault::Stale => "Stale",
        Fault::DrainFull => "DrainFull",
        Fault::EpochsSpent => "EpochsSpent",
        Fault::Empty => "Empty",
        Fault::NotReady { .. } => "NotReady",
        Fault::NotTaken => "NotTaken",
        Fault::NotAbove => "NotAbove",
        Fault::AboveTail => "AboveTail",
        Fault::NotPage => "NotPage",
        Fault::AboveFlushed => "AboveFlushed",
        Fault::Size => "Size",
        Fault::Busy { .. } => "Busy",
        Fault::SpaceSpent => "SpaceSpent",
        Fault::Below { .. } => "Below",
        Fault::Beyond { .. } => "Beyond",
        Fault::Evicted { .. } => "Evicted",
        Fault::NoneSealed => "NoneSealed",
        Fault::NotInFlight => "NotInFlight",
        Fault::NoneClosed => "NoneClosed",
        Fault::NotCleaning => "NotCleaning",
        Fault::NoJob => "NoJob",
        Fault::TouchesFull => "TouchesFull",
        Fault::Stranger { .. } => "Stranger",
        Fault::JournalFull => "JournalFull",
        Fault::Device => "Device",
        Fault::OutOfMemory => "OutOfMemory",
        Fault::BadLine { .. } => "BadLine",
        Fault::Stream => "Stream",
        Fault::WindowFull => "WindowFull",
    }
}
