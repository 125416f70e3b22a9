use hl_action::{AnyAnswer, NoJob};
use hl_counts::CountTable;
use hl_domain::Domain;

/// A log, which threads share by `&`. If you store no jobs of your own, name only its brand: its
/// actions are then settles and closes, and its table of epochs is the one by counts.
pub type Log<L, F = NoJob, P = AnyAnswer, E = CountTable> = Domain<E, F, P, L>;
