ghost use Rattle.std.specs.Prelude.{◌≡◌, false, ◌&&◌, IsSome, IfNone, is_some};

use crate::seats::Done;
use crate::sleepers::AllTold;
use std::thread::JoinHandle;

/// That each thread of a crew was made. Only what came of making them shows it. None can end before its work is done, nor
/// the flusher before it told the others.
#[derive(Drop)]
pub(crate) struct Whole {
    _made: (),
}

impl Whole {
    /// Returns whether the writers, the cleaner and the flusher were made, by the handle of each: only a thread that
    /// was made has one.
    pub(crate) fn of(
        first: Option<JoinHandle<Done>>,
        second: Option<JoinHandle<Done>>,
        cleaner: Option<JoinHandle<Done>>,
        flusher: Option<JoinHandle<(Done, AllTold)>>,
    ) -> Option<Whole>
        ensures made { IsSome result → IsSome first × IsSome second × IsSome cleaner × IsSome flusher }
        ensures missing { IfNone result
            ((is_some first && (is_some second && (is_some cleaner && is_some flusher))) ≡ false) }
    {
        if first.is_some() && second.is_some() && cleaner.is_some() && flusher.is_some() {
            Some(Whole { _made: () })
        } else {
            None
        }
    }
}
