//! Which pages are flushed, in flight, freed and being cleaned, after a base and the steps since.

ghost use Rattle.std.specs.Prelude.{◌≡◌, ◌^◌, ◌≤◌, ◌||◌, map};
ghost use Rattle.std.specs.List.{list_any};
ghost use Rattle.hl_model.specs.Bases.{held_in, completed_in, marked_in};
ghost use Rattle.hl_model.specs.Pages.{goes_out, comes_back, is_out};
ghost use Rattle.hl_model.specs.AfterPages.{is_complete_after, is_out_after, next_page_after, marks_after_step};
ghost use Rattle.hl_plain.specs.Works.{takes_of, ends_of, completes_of, due_of, complete_mark, out_mark, begun_of, as_mark, marks_in};

use crate::lists::until_last;
use crate::settled::{closed, safe_read_only};
use hl_laws::Base;
use hl_model::{Held, Step};

/// A kind of work on pages.
#[derive(Clone, Copy, Debug, PartialEq, Eq)]
pub enum Work {
    /// Sealed pages are flushed.
    Flushing,
    /// Closed pages are cleaned.
    Cleaning,
}

/// What a step does to a page.
#[derive(Clone, Copy, Debug, PartialEq, Eq)]
pub enum Mark {
    /// This page goes out to be worked on.
    Out(u64),
    /// This page comes back.
    Back(u64),
}

impl Mark {
    // Whether page p goes out by it.
    fn goes_out(self, p: u64) -> bool
        ensures { result ≡ goes_out p (as_mark self) }
    {
        match self {
            Mark::Out(page) => page == p,
            Mark::Back(_) => false,
        }
    }

    // Whether page p comes back by it.
    fn comes_back(self, p: u64) -> bool
        ensures { result ≡ comes_back p (as_mark self) }
    {
        match self {
            Mark::Out(_) => false,
            Mark::Back(page) => page == p,
        }
    }
}

impl Work {
    // Whether a step takes a page.
    fn takes(self, step: &Step) -> bool
        ensures { result ≡ takes_of self step.now }
    {
        match self {
            Work::Flushing => matches!(step, Step::FlushTake),
            Work::Cleaning => matches!(step, Step::CleanTake),
        }
    }

    // The page whose work a step ends.
    fn ends(self, step: &Step) -> Option<u64>
        ensures { result ≡ ends_of self step.now }
    {
        match self {
            Work::Flushing => match *step {
                Step::FlushDone { page, .. } => Some(page),
                _ => None,
            },
            Work::Cleaning => match *step {
                Step::CleanDone { page } => Some(page),
                _ => None,
            },
        }
    }

    // Whether a step completes the work on page p.
    fn completes(self, p: u64, step: &Step) -> bool
        ensures { result ≡ completes_of self p step.now }
    {
        match self {
            Work::Flushing => match *step {
                Step::FlushDone { page, ok } => page == p && ok,
                _ => false,
            },
            Work::Cleaning => match *step {
                Step::CleanDone { page } => page == p,
                _ => false,
            },
        }
    }

    // The pages below this number are due.
    fn due(self, base: &Base, steps: &[Step]) -> u64
        requires { base.now.epoch ≤ 2 ^ 62 }
        ensures { result ≡ due_of base.now self steps.now }
    {
        let end = match self {
            Work::Flushing => safe_read_only(base, steps),
            Work::Cleaning => closed(base, steps),
        };
        end / base.params().page_size()
    }

    // Whether the work on a frame's page is marked complete.
    fn complete_mark(self, held: Held) -> bool
        ensures { result ≡ complete_mark self held }
    {
        match self {
            Work::Flushing => held.flushed,
            Work::Cleaning => held.freed,
        }
    }

    // Whether a frame's page is marked as being out.
    fn out_mark(self, held: Held) -> bool
        ensures { result ≡ out_mark self held }
    {
        match self {
            Work::Flushing => held.in_flight,
            Work::Cleaning => held.cleaning,
        }
    }

    /// Whether the work on page p was completed, told what the page's frame holds: if that is a later page,
    /// it had to be.
    pub fn completed_in(self, p: u64, held: Option<Held>) -> bool
        ensures { result ≡ completed_in (complete_mark self) p held }
    {
        match held {
            None => false,
            Some(held) => p < held.page || p == held.page && self.complete_mark(held),
        }
    }

    /// Whether page p is out, told what the page's frame holds.
    pub fn out_in(self, p: u64, held: Option<Held>) -> bool
        ensures { result ≡ marked_in (out_mark self) p held }
    {
        match held {
            None => false,
            Some(held) => p == held.page && self.out_mark(held),
        }
    }

    // Whether a step since completed the work on page p.
    fn completed_since(self, p: u64, steps: &[Step]) -> bool
        ensures { result ≡ list_any (completes_of self p) steps.now }
    {
        steps.iter().any(|step| self.completes(p, step))
    }

    /// Whether the work on page p is complete: in the base, or by the steps.
    #[tactic(auto, unfolding(hl_model::specs::AfterPages::is_complete_after, hl_model::specs::Pages::is_complete))]
    pub fn is_complete(self, base: &Base, p: u64, steps: &[Step]) -> bool
        ensures { result ≡ is_complete_after (begun_of base.now self) p steps.now }
    {
        self.completed_in(p, held_in(base, p)) || self.completed_since(p, steps)
    }

    /// Whether page p is out, told the marks of the steps: by its marks if there are any, else as in the
    /// base.
    #[tactic(auto, unfolding(hl_model::specs::AfterPages::is_out_after), using(crate::proofs::FoldLaws::list_any_map))]
    pub fn is_out(self, base: &Base, p: u64, marks: &[Mark]) -> bool
        ensures { result ≡ is_out_after (begun_of base.now self) p (map as_mark marks.now) }
    {
        if is_marked(p, marks) {
            is_out(p, marks)
        } else {
            self.out_in(p, held_in(base, p))
        }
    }

    // Whether the work on page p is complete, or p is out.
    fn is_begun(self, base: &Base, p: u64, steps: &[Step], marks: &[Mark]) -> bool
        ensures { let begun = begun_of base.now self
            in result
            ≡ (is_complete_after begun p steps.now || is_out_after begun p (map as_mark marks.now)) }
    {
        self.is_complete(base, p, steps) || self.is_out(base, p, marks)
    }

    // The least page that is due and neither complete nor out, told the marks of the steps.
    #[tactic(auto, unfolding(hl_model::specs::AfterPages::next_page_after))]
    fn next_page(self, base: &Base, steps: &[Step], marks: &[Mark]) -> Option<u64>
        requires { base.now.epoch ≤ 2 ^ 62 }
        ensures { result ≡ next_page_after (begun_of base.now self) steps.now (map as_mark marks.now) }
    {
        (0..self.due(base, steps)).find(|p| !self.is_begun(base, *p, steps, marks))
    }

    /// The mark that a step makes, told the steps before it and their marks.
    pub fn mark_of(self, base: &Base, steps: &[Step], marks: &[Mark], step: &Step) -> Option<Mark>
        requires { base.now.epoch ≤ 2 ^ 62 }
        ensures { let begun = begun_of base.now self
            in marks_in result ≡ marks_after_step begun steps.now (map as_mark marks.now) step.now }
    {
        if self.takes(step) {
            self.next_page(base, steps, marks).map(Mark::Out)
        } else {
            self.ends(step).map(Mark::Back)
        }
    }
}

// What the frame of page p holds in a base.
fn held_in(base: &Base, p: u64) -> Option<Held>
    ensures { result ≡ held_in base.now p }
{
    let f = p % base.params().frames();
    *base.frames().get(f as usize)?
}

// Whether page p went out or came back by these marks.
fn is_marked(p: u64, marks: &[Mark]) -> bool
    ensures { result ≡ list_any (λ mark. goes_out p (as_mark mark) || comes_back p (as_mark mark)) marks.now }
{
    marks
        .iter()
        .any(|mark| mark.goes_out(p) || mark.comes_back(p))
}

// Whether page p is out by these marks.
#[tactic(auto, unfolding(hl_model::specs::Pages::is_out), using(crate::proofs::FoldLaws::until_last_map))]
fn is_out(p: u64, marks: &[Mark]) -> bool
    ensures { result ≡ is_out p (map as_mark marks.now) }
{
    until_last(marks, |mark| mark.comes_back(p)) < until_last(marks, |mark| mark.goes_out(p))
}
