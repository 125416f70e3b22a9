use crate::cleaner::CleanerState;
use crate::flusher::FlusherState;
use crate::writer::WriterState;
use hl_words::Realm;
use std::marker::{Brand, PhantomData};

/// Names what is known of what each thread of a crew has of its own, with whether it has done its work. What lies under
/// a lock is known by its type alone: by this name the type can say what the thread was given, and what it does from
/// there on.
pub(crate) trait Given<W> {
    ghost use Rattle.std.specs.Prelude.{Bool, Option};
    ghost use Rattle.hl_words.specs.States.{RiderState};
    ghost use Rattle.hl_keeper.specs.Pages.{BroomRecord};
    ghost use Rattle.hl_crew.specs.declared.counts.Counts.{Counts};
    ghost use Rattle.hl_crew.specs.declared.flusher.asked.Asked.{Asked};

    ghost flusher: { Bool → RiderState → Counts → Asked → Type 0 };

    ghost first: { Bool → RiderState → W → Counts → Type 0 };

    ghost second: { Bool → RiderState → W → Counts → Type 0 };

    ghost cleaner: { Bool → RiderState → Option BroomRecord → Type 0 };
}

impl<W> Given<W> for Brand {
    ghost use Rattle.std.specs.Prelude.{⊤};

    ghost flusher = { λ _ _ _ _. ⊤ };

    ghost first = { λ _ _ _ _. ⊤ };

    ghost second = { λ _ _ _ _. ⊤ };

    ghost cleaner = { λ _ _ _. ⊤ };
}

/// Names what is known of what one thread has of its own, with whether it has done its work.
pub(crate) trait Left<S> {
    ghost use Rattle.std.specs.Prelude.{Bool};

    ghost left: { Bool → S → Type 0 };
}

/// The flusher of a crew by its name.
#[derive(Drop)]
pub(crate) struct OfFlusher<W, K> {
    of: PhantomData<(W, K)>,
}

impl<L: Realm, W, K: Given<W>> Left<FlusherState<L>> for OfFlusher<W, K> {
    ghost left = { λ is_done own. K.flusher is_done own.rider own.counts own.asked };
}

/// Its first writer.
#[derive(Drop)]
pub(crate) struct OfFirst<W, K> {
    of: PhantomData<(W, K)>,
}

impl<L: Realm, W, K: Given<W>> Left<WriterState<L, W>> for OfFirst<W, K> {
    ghost left = { λ is_done own. K.first is_done own.rider own.pages own.counts };
}

/// Its second writer.
#[derive(Drop)]
pub(crate) struct OfSecond<W, K> {
    of: PhantomData<(W, K)>,
}

impl<L: Realm, W, K: Given<W>> Left<WriterState<L, W>> for OfSecond<W, K> {
    ghost left = { λ is_done own. K.second is_done own.rider own.pages own.counts };
}

/// Its cleaner.
#[derive(Drop)]
pub(crate) struct OfCleaner<W, K> {
    of: PhantomData<(W, K)>,
}

impl<L: Realm, W, K: Given<W>> Left<CleanerState<L>> for OfCleaner<W, K> {
    ghost left = { λ is_done own. K.cleaner is_done own.rider own.swept };
}
