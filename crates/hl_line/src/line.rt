use hl_model::{Params, Step};

/// A line of a script.
#[derive(Clone, Copy, Debug, PartialEq, Eq)]
pub enum Line {
    /// Opens with these sizes. Only a script's first line may be one.
    Config(Params),
    /// Makes this step.
    Step(Step),
    /// Asks for the quantities.
    Status,
    /// Asks for the pending actions, oldest first.
    Pending,
    /// Asks for the state of each frame.
    Frames,
}
