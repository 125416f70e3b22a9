use crate::stop::Stop;

/// How long a crew works, and how its pages come to the writers.
#[derive(Drop)]
pub(crate) enum Mode<'x> {
    /// For as many turns as the limits say: the flusher takes the pages, and sends them by channels.
    Turns,
    /// Until this stop is given: each writer takes its pages itself.
    Until(&'x Stop),
}
