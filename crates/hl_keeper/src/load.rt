ghost use Rattle.std.specs.Prelude.{◌≡◌};
ghost use Rattle.hl_keeper.specs.Pages.{BroomRecord};

use std::marker::Model;

/// Names a page of a domain by the stamp of its domain and its number. If it is a load's, the page
/// is in flight.
#[derive(Clone, Copy, Debug, PartialEq, Eq)]
pub struct PageJob {
    /// The stamp of the domain whose page it is.
    pub stamp: u64,
    /// The page's number.
    pub page: u64,
}

/// A page that was taken to be flushed. Only a keeper makes one. It must be ended, by `flush_done`
/// or by `forsake`.
pub struct Load {
    job: PageJob,
}

impl Model for Load {
    ghost use Rattle.hl_keeper.specs.declared.load.PageJob.{PageJob};

    ghost Value = { PageJob };

    ghost view = { λ a. a.job };
}

impl Load {
    pub(crate) fn of(job: PageJob) -> Load
        ensures { result ≡ job }
    {
        Load { job }
    }

    /// Names the page, for whoever copies it and writes it.
    pub fn job(&self) -> PageJob
        ensures { result ≡ self.now }
    {
        self.job
    }

    /// Gives it up. If no `flush_done` was made of it, the page stays in flight for good.
    pub fn forsake(self) {
        let Load { job: _ } = self;
    }
}

/// A page that was taken to be cleaned, with the number of its cells into which 0 was stored. Only
/// a keeper makes one. It must be ended, by `clean_done` once it is swept, or by `forsake`.
pub struct Broom {
    stamp: u64,
    page: u64,
    swept: u64,
}

impl Model for Broom {
    ghost use Rattle.hl_keeper.specs.Pages.{BroomRecord};

    ghost Value = { BroomRecord };

    ghost view = { λ a. record { stamp = a.stamp; page = a.page; swept = a.swept } };
}

impl Broom {
    pub(crate) fn of(job: PageJob) -> Broom
        ensures { result ≡ record { stamp = job.stamp; page = job.page; swept = 0 } }
    {
        Broom {
            stamp: job.stamp,
            page: job.page,
            swept: 0,
        }
    }

    /// The stamp of the domain whose page it is.
    pub fn stamp(&self) -> u64
        ensures { result ≡ self.now.stamp }
    {
        self.stamp
    }

    /// The page's number.
    pub fn page(&self) -> u64
        ensures { result ≡ self.now.page }
    {
        self.page
    }

    /// Counts this many of its cells as swept.
    pub(crate) fn count(&mut self, swept: u64)
        ensures { self.new ≡ record { stamp = self.old.stamp; page = self.old.page; swept = swept } }
    {
        self.swept = swept;
    }

    /// How many of its cells were swept.
    pub fn swept(&self) -> u64
        ensures { result ≡ self.now.swept }
    {
        self.swept
    }

    /// Gives it up. If no `clean_done` was made of it, the page stays in cleaning for good.
    pub fn forsake(self) {
        let Broom {
            stamp: _,
            page: _,
            swept: _,
        } = self;
    }
}
