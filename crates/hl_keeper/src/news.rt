//! Whether anything is new to a pass, by three loads and no lock.
ghost use Rattle.std.specs.Prelude.{◌≡◌, ◌≤◌};
ghost use Rattle.hl_words.specs.declared.which.Which.TheVariants.{Ended};
ghost use Rattle.hl_words.specs.Views.{greatest_of, looked};
ghost use Rattle.hl_keeper.specs.Passes.{is_current, with_news, last_read_only, last_head, last_ended, LooksOn};

use crate::pass::Pass;
use crate::touches::TOUCHES_MOST;
use hl_pass::{News, is_current};
use hl_words::{Realm, Which, Words};

/// Loads both offset words and the word of the last epoch that ended. Returns whether none is new
/// to the pass: neither offset is above the one that it saw, and its slot's epoch has not ended;
/// and whether it has room for a touch. Nothing enters, and no load is below any that the rider
/// made of that word before.
#[inline(always)]
pub fn keeps_up<L: Realm>(words: &Words<L>, pass: &mut Pass<L>) -> bool
    ensures current { let new = pass.new
        in result ≡ is_current (last_read_only new) (last_head new) (last_ended new) pass.old }
    ensures pass { let new = pass.new
        in new ≡ with_news (last_read_only new) (last_head new) (last_ended new) pass.old }
    ensures rises { LooksOn pass.old pass.new }
    ensures ended { greatest_of Ended (looked pass.old.rider.view.touches) ≤ last_ended pass.new }
{
    let read_only = words.load_offset(&mut pass.rider, Which::ReadOnly);
    let head = words.load_offset(&mut pass.rider, Which::Head);
    let ended = words.load_offset(&mut pass.rider, Which::Ended);
    pass.is_current(read_only, head, ended)
}

impl<L: Realm> Pass<L> {
    /// Whether neither offset is above the one that it saw, the last epoch that ended is below its
    /// slot's, and it has room for a touch.
    #[inline(always)]
    fn is_current(&self, read_only: u64, head: u64, ended: u64) -> bool
        ensures { result ≡ is_current read_only head ended self.now }
    {
        let news = News {
            read_only,
            head,
            ended,
        };
        is_current(self.own.view, self.own.epoch, news) && self.touches.len() < TOUCHES_MOST
    }
}
