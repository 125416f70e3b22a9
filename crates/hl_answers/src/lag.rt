ghost use Rattle.std.specs.Prelude.{◌≡◌};
ghost use Rattle.hl_answers.specs.Lags.{no_step, lag_step, step_at, lag_outcome, no_lag, lag_answer};

use crate::outcome::{NO_CORE, OUT_OF_RANGE};
use hl_lag::lag_steps;
use hl_model::{Six, Sizes, Step};

/// A step of a lag: 1 a raise, 2 a settle, 3 a shift, 4 a close; and the address to which a raise or a shift
/// moves its offset. Both are 0 if there is none.
#[repr(C)]
#[derive(Clone, Copy, Drop)]
pub struct LagStep {
    pub kind: u64,
    pub address: u64,
}

/// How many steps a lag has, and these in their order; the number is 0, or that of a refusal, with no step.
#[repr(C)]
#[derive(Clone, Copy, Drop)]
pub struct LagOutcome {
    pub number: u64,
    pub count: u64,
    pub steps: [LagStep; 4],
}

impl LagStep {
    fn none() -> LagStep
        ensures { result ≡ no_step }
    {
        LagStep {
            kind: 0,
            address: 0,
        }
    }

    fn of(step: Step) -> LagStep
        ensures { result ≡ lag_step step }
    {
        let (kind, address) = match step {
            Step::Raise { x } => (1, x),
            Step::Settle => (2, 0),
            Step::Shift { x } => (3, x),
            Step::Close => (4, 0),
            _ => (0, 0),
        };
        LagStep { kind, address }
    }

    // The one at a place, if there is one.
    fn at(steps: &[Step], place: usize) -> LagStep
        ensures { result ≡ step_at steps.now place }
    {
        match steps.get(place) {
            Some(step) => LagStep::of(*step),
            None => LagStep::none(),
        }
    }
}

impl LagOutcome {
    /// The lag of so many pages at these offsets.
    #[tactic(auto, unfolding(crate::specs::Lags::lag_answer))]
    pub fn of(params: Sizes, six: Six, mutable: u64, resident: u64) -> LagOutcome
        ensures { result ≡ lag_answer params six mutable resident }
    {
        if 1 <= mutable && mutable <= resident && resident < params.frames() {
            LagOutcome::of_steps(lag_steps(params, six, mutable, resident).as_slice())
        } else {
            LagOutcome::refused(OUT_OF_RANGE)
        }
    }

    // Of these steps, of which it has places for four.
    fn of_steps(steps: &[Step]) -> LagOutcome
        ensures { result ≡ lag_outcome steps.now }
    {
        LagOutcome {
            number: 0,
            count: steps.len() as u64,
            steps: [
                LagStep::at(steps, 0),
                LagStep::at(steps, 1),
                LagStep::at(steps, 2),
                LagStep::at(steps, 3),
            ],
        }
    }

    pub fn no_core() -> LagOutcome
        ensures { result ≡ no_lag 255 }
    {
        LagOutcome::refused(NO_CORE)
    }

    fn refused(number: u64) -> LagOutcome
        ensures { result ≡ no_lag number }
    {
        LagOutcome {
            number,
            count: 0,
            steps: [LagStep::none(); 4],
        }
    }
}
