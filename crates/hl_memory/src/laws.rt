//! The laws on that memory: each the contract of a function that does nothing.
ghost use Rattle.hl_model.specs.Sizes.{Sizes as SIZES};
ghost use Rattle.hl_memory.specs.Images.{ImagesAreMemory, ImagesAreSumsAnywhere, ImagesAreWords, ImagesAreWrites, ImagesAreZero, ImagesStay};
ghost use Rattle.hl_memory.specs.Keeping.{ActsAreKept, ActsStand, CallsMeetView};
ghost use Rattle.hl_memory.specs.Memory.{ChangesFindMemory, HistoriesStand, OneMemory, OpenFindMemory, WordsAreMemory};

use hl_action::Task;

/// The acts of all riders have one order, in which each rider whose loads are at open addresses finds by each
/// load, and by each change, what the newest store at that very address left, or 0.
pub fn one_memory<F: Task>()
    ensures { OneMemory F }
{}

/// There is one order of the acts of all riders.
pub fn histories_stand<F: Task>()
    ensures { HistoriesStand F }
{}

/// In it each rider whose loads are at open addresses finds that memory.
pub fn open_find_memory<F: Task>()
    ensures { OpenFindMemory F }
{}

/// So does each change, of whichever rider.
pub fn changes_find_memory<F: Task>()
    ensures { ChangesFindMemory F }
{}

/// The words at the end are that memory.
pub fn words_are_memory<F: Task>()
    ensures { WordsAreMemory F }
{}

/// The image of a flushed page is that memory at a place of the order.
pub fn images_are_memory<F: Task>()
    ensures { ImagesAreMemory F }
{}

/// Behind that place only 0s of the page's own sweep are stored at its addresses.
pub fn images_stay<F: Task>()
    ensures { ImagesStay F }
{}

/// A word of an image is that of the one list, if no rider but one wrote at its address.
pub fn images_are_words<F: Task>()
    ensures { ImagesAreWords F }
{}

/// If more than one rider wrote at its address, a word of an image is what one of them wrote there last.
pub fn images_are_writes<F: Task>()
    ensures { ImagesAreWrites F }
{}

/// If nobody wrote at its address, a word of an image is 0.
pub fn images_are_zero<F: Task>()
    ensures { ImagesAreZero F }
{}

/// If each rider only added at its address, or wrote nothing there, a word of an image is the sum of all that
/// was added, modulo 2^64.
pub fn images_are_sums_anywhere<F: Task>()
    ensures { ImagesAreSumsAnywhere F }
{}

/// The acts of a rider stay what they are, and its loads at open addresses, by all that a pass does.
pub fn acts_are_kept()
    ensures { (sizes : SIZES) → ActsAreKept sizes }
{}

/// Whoever's stores are entered has acts, if it loaded only cells that there are.
pub fn acts_stand()
    ensures { ActsStand }
{}

/// An accepted call of a pass met its slot with the view that the pass holds.
pub fn calls_meet_view<F: Task>()
    ensures { CallsMeetView F }
{}
