ghost use Rattle.std.specs.Prelude.{◌≡◌, None};
ghost use Rattle.hl_crew.specs.Goes.{UpTo};
ghost use Rattle.hl_crew.specs.Looks.{LooksNext};
ghost use Rattle.hl_crew.specs.Turns.{Cleans, CleansNext, Finds, Frees};
ghost use Rattle.hl_crew.specs.Works.{CleansBy, IsNamed};

use crate::ends::end_by_tries;
use crate::given::Left;
use crate::looks::{Look, Looker, or_nowhere};
use crate::messages::Over;
use crate::run::Run;
use crate::seats::{Done, Seat};
use hl_action::{Promise, Task};
use hl_domain::Broom;
use hl_epoch::Epochs;
use hl_model::Fault;
use hl_words::{Realm, Rider};
use std::marker::{Model, PhantomData};
use std::sync::{Mutex, Wait};

/// A page that was taken to be cleaned, and whose cells were all swept. It must be ended, by a done of its broom or by
/// `forsake`.
pub(crate) struct SweptPage<L: Realm> {
    broom: Broom,
    of: PhantomData<L>,
}

impl<L: Realm> Model for SweptPage<L> {
    ghost use Rattle.std.specs.Prelude.{◌≡◌};
    ghost use Rattle.hl_keeper.specs.Pages.{BroomRecord};

    ghost Value = { BroomRecord };

    ghost view = { λ page. page.broom };

    ghost invariant = { λ page. page.broom.swept ≡ L.sizes.page_size };
}

impl<L: Realm> SweptPage<L> {
    // The page of this broom.
    fn of(broom: Broom) -> SweptPage<L>
        requires { broom.swept ≡ L.sizes.page_size }
        ensures { result ≡ broom }
    {
        SweptPage {
            broom,
            of: PhantomData,
        }
    }

    // Its broom.
    fn into_broom(self) -> Broom
        ensures same { result ≡ self }
        ensures swept { result.swept ≡ L.sizes.page_size }
    {
        let SweptPage { broom, of: _ } = self;
        broom
    }

    /// Gives it up: the page stays in cleaning for good.
    pub(crate) fn forsake(self) {
        self.into_broom().forsake();
    }
}

/// What the cleaner has of its own.
pub(crate) struct CleanerState<L: Realm> {
    pub(crate) rider: Rider<L>,
    /// A page that it swept, and whose done was refused. It is answered before another is taken.
    pub(crate) swept: Option<SweptPage<L>>,
}

impl<L: Realm> CleanerState<L> {
    /// Returns a cleaner that keeps no page.
    pub(crate) fn new(rider: Rider<L>) -> CleanerState<L>
        ensures { (result.rider ≡ rider) × (result.swept ≡ None) }
    {
        CleanerState { rider, swept: None }
    }

    /// Returns its rider. A page that it still keeps is given up.
    pub(crate) fn into_rider(self) -> Rider<L>
        ensures { result ≡ self.rider }
    {
        let CleanerState { rider, swept } = self;
        if let Some(page) = swept {
            page.forsake();
        }
        rider
    }
}

impl<R: Wait, E: Epochs + Drop, F: Task, P: Promise, L: Realm, G> Look<CleanerState<L>>
    for Run<'_, R, E, F, P, L, G> {
    ghost finds = { λ run. Finds F run.domain.now run.limits.cuts };

    /// Cleans a page. If the journal is full and may be cut, it is cut, and a page is looked for once more.
    fn find(&self, own: &mut CleanerState<L>) -> Result<bool, Over> {
        let cleaned = self.clean(own);
        if self.has_made_room(&mut own.rider, &cleaned) {
            or_nowhere(self.clean(own))
        } else {
            cleaned
        }
    }
}

impl<R: Wait, E: Epochs + Drop, F: Task, P: Promise, L: Realm, G> Run<'_, R, E, F, P, L, G> {
    /// The cleaner's thread: cleans closed pages.
    pub(crate) fn run_cleaner<K: Left<CleanerState<L>>>(
        &self,
        own: &Mutex<Seat<CleanerState<L>, K>>,
    ) -> Done
        requires { IsNamed K.left (CleansBy F self.now.domain.now self.now.limits) }
    {
        let mut guard = own.lock(self.rt);
        let seat = &mut *guard;
        if !seat.is_done {
            let _ = self.clean_all(&mut seat.own, self.limits.turns());
            seat.is_done = true;
        }
        seat.done()
    }

    /// Looks for closed pages, and cleans each, by at most this many looks.
    pub(crate) fn clean_all(&self, own: &mut CleanerState<L>, most: u64) -> Result<(), Over>
        ensures { UpTo (LooksNext (Finds F self.now.domain.now self.now.limits.cuts)) most
            result own.old own.new }
    {
        let looker = Looker {
            rt: self.rt,
            ended: &self.ended,
            sleeper: &self.sleepers.cleaner,
        };
        looker.look_on(self, own, most)
    }

    // Cleans a page: the one that it kept, or else the next. False if none is closed.
    fn clean(&self, own: &mut CleanerState<L>) -> Result<bool, Over>
        ensures { Cleans F self.now.domain.now self.now.limits.cuts result own.old own.new }
    {
        match own.swept.take() {
            Some(page) => {
                self.domain.known();
                self.free(own, page.into_broom())
            }
            None => self.clean_next(own),
        }
    }

    // Cleans the next page: takes it, sweeps it, and answers it clean. False if none is closed.
    fn clean_next(&self, own: &mut CleanerState<L>) -> Result<bool, Over>
        requires { own.old.swept ≡ None }
        ensures { CleansNext F self.now.domain.now self.now.limits.cuts None result own.old own.new }
    {
        let mut broom = match self.domain.clean_take(self.rt, &mut own.rider) {
            Ok(broom) => broom,
            Err(Fault::NoneClosed) => return Ok(false),
            Err(fault) => return Err(Over::of(&fault)),
        };
        let Ok(()) = self.domain.sweep(&mut broom, &mut own.rider) else {
            broom.forsake();
            return Err(Over::Lost);
        };
        self.free(own, broom)
    }

    // Answers a swept page clean, by as many tries as that takes. If it is refused, the page is kept.
    fn free(&self, own: &mut CleanerState<L>, broom: Broom) -> Result<bool, Over>
        requires swept { broom.swept ≡ self.now.domain.now.sizes.page_size }
        requires none { own.old.swept ≡ None }
        ensures { Frees F self.now.domain.now self.now.limits.cuts broom result own.old.rider own.new }
    {
        self.domain.known();
        let may_cut = self.limits.makes_room();
        match end_by_tries(self.rt, self.domain, &mut own.rider, may_cut, broom) {
            Ok(_) => Ok(true),
            Err((fault, broom)) => {
                match own.swept.replace(SweptPage::of(broom)) {
                    None => {}
                    Some(page) => page.forsake(),
                }
                Err(Over::of(&fault))
            }
        }
    }
}
