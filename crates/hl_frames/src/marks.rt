ghost use Rattle.std.specs.Prelude.{◌≡◌, ◌+◌, ◌^◌, ◌<◌, Some, true, false};
ghost use Rattle.hl_frames.specs.Answers.{unmarked};
ghost use Rattle.std.specs.Option.{option_map};
ghost use Rattle.hl_model.specs.declared.frame.Held.{Held as HELD};

use hl_model::Held;

// Each changes what a frame holds, or the marks of the page in it, if it holds one: then the marks alone are
// written. If a call's turns are told, the visit of its frame is counted here.

/// The frame holds another page from now on, with no mark. One turn.
#[inline(always)]
pub(crate) fn begin_page(held: &mut Option<Held>, page: u64, turns: &mut u64)
    requires { turns.old < 2 ^ 32 }
    ensures held { held.new ≡ Some (unmarked page) }
    ensures turns { turns.new ≡ turns.old + 1 }
{
    *turns += 1;
    *held = Some(Held {
        page,
        flushed: false,
        in_flight: false,
        freed: false,
        cleaning: false,
    });
}

/// The page's flush begins.
#[inline(always)]
pub(crate) fn begin_flush(held: &mut Option<Held>)
    ensures { held.new ≡ option_map (λ (h : HELD). record h { in_flight = true }) held.old }
{
    if let Some(held) = held {
        held.in_flight = true;
    }
}

/// The page's flush ended, well or not. One turn.
#[inline(always)]
pub(crate) fn end_flush(held: &mut Option<Held>, ok: bool, turns: &mut u64)
    requires { turns.old < 2 ^ 32 }
    ensures held { held.new
        ≡ option_map (λ (h : HELD). record h { in_flight = false; flushed = ok }) held.old }
    ensures turns { turns.new ≡ turns.old + 1 }
{
    *turns += 1;
    if let Some(held) = held {
        held.in_flight = false;
        held.flushed = ok;
    }
}

/// The page's cleaning begins.
#[inline(always)]
pub(crate) fn begin_cleaning(held: &mut Option<Held>)
    ensures { held.new ≡ option_map (λ (h : HELD). record h { cleaning = true }) held.old }
{
    if let Some(held) = held {
        held.cleaning = true;
    }
}

/// The page's cleaning ended: it is freed. One turn.
#[inline(always)]
pub(crate) fn end_cleaning(held: &mut Option<Held>, turns: &mut u64)
    requires { turns.old < 2 ^ 32 }
    ensures held { held.new
        ≡ option_map (λ (h : HELD). record h { cleaning = false; freed = true }) held.old }
    ensures turns { turns.new ≡ turns.old + 1 }
{
    *turns += 1;
    if let Some(held) = held {
        held.cleaning = false;
        held.freed = true;
    }
}
