use crate::log::Log;
use hl_action::Task;
use hl_words::{Realm, Rider};

/// What a program does with a log: a trait and not a closure, since a closure can't be generic over
/// the log's brand `L`.
pub trait Part<R> {
    ghost use Rattle.std.specs.Prelude.{List};
    ghost use Rattle.std.specs.List.{AllByRecursion};
    ghost use Rattle.hl_words.specs.States.{RiderState};
    ghost use Rattle.hl_domain.specs.Domains.{DomainState};
    ghost use Rattle.hl_traces.specs.Traces.{RiderTraces};

    /// The jobs that its bumps store: [`NoJob`](hl_action::NoJob) if it stores none.
    type Job: Task;

    /// What it returns beside the riders.
    type Out;

    ghost wants: { Self → DomainState → List RiderState → Type 0 } = { λ _ _ _. Unit {0} };

    ghost leaves: { Self → Self.Out → List RiderState → Type 0 } = { λ _ _ _. Unit {0} };

    /// Uses the log, and returns its result and all riders: if one is missing, the log can't be
    /// closed.
    ///
    /// A part that has to know something of its log, of which contracts see the sizes, the stamp
    /// and how many riders it has, or of the riders, says so by its member `wants`, which whoever
    /// opens the log proves. What is to be known of its result, and of the riders that come back,
    /// it says by `leaves`. Left out, both say nothing.
    fn run<L: Realm + Send + Sync>(
        self,
        rt: &R,
        log: &Log<L, Self::Job>,
        riders: Vec<Rider<L>>,
    ) -> (Self::Out, Vec<Rider<L>>)
        requires wants { wants self log.now riders.items }
        requires enter { AllByRecursion (RiderTraces log.now.sizes) riders.items }
        ensures { leaves self result.0 result.1.items };
}
