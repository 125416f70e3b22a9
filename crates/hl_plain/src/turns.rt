//! Which page a take names, told what is present.

ghost use Rattle.std.specs.Prelude.{◌≡◌, ◌||◌};
ghost use Rattle.hl_model.specs.Bases.{held_in, completed_in, freed_in};
ghost use Rattle.hl_plain.specs.Works.{complete_mark, out_in, due_in, next_in};

use crate::pages::Work;
use crate::present::Present;

/// Whether page p is freed.
pub fn is_freed(present: &Present, p: u64) -> bool
    ensures { result ≡ freed_in present.now p }
{
    Work::Cleaning.completed_in(p, present.held_for(p))
}

/// Whether page p is out for this work.
pub fn is_out(work: Work, present: &Present, p: u64) -> bool
    ensures { result ≡ out_in present.now work p }
{
    work.out_in(p, present.held_for(p))
}

// Whether this work on page p is complete, or p is out for it.
fn is_begun(work: Work, present: &Present, p: u64) -> bool
    ensures { let held = held_in present.now p
        in result ≡ (completed_in (complete_mark work) p held || out_in present.now work p) }
{
    let held = present.held_for(p);
    work.completed_in(p, held) || work.out_in(p, held)
}

// The pages below this number are due.
fn due(work: Work, present: &Present) -> u64
    ensures { result ≡ due_in present.now work }
{
    let end = match work {
        Work::Flushing => present.safe_read_only(),
        Work::Cleaning => present.closed(),
    };
    end / present.params().page_size()
}

/// The least page that is due and neither complete nor out.
pub fn next_page(work: Work, present: &Present) -> Option<u64>
    ensures { result ≡ next_in present.now work }
{
    (0..due(work, present)).find(|p| !is_begun(work, present, *p))
}
