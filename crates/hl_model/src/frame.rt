/// What a frame is at: its last entered page goes through these in turn, from being entered to being freed.
#[derive(Clone, Copy, Debug, PartialEq, Eq)]
pub enum FrameState {
    /// The page may still be written.
    Opened,
    /// The page lies below the safe read-only offset: no slot's view lets it be written, and it may be
    /// flushed.
    Sealed,
    /// The page is flushed.
    Flushed,
    /// The page lies below the closed offset: no slot's view lets it be read, and it may be cleaned.
    Closed,
    /// No page was entered, or the last one is freed.
    Free,
}

/// What a frame holds: the page that was entered in it last, with that page's marks.
#[derive(Clone, Copy, Debug, PartialEq, Eq)]
pub struct Held {
    /// The page's number.
    pub page: u64,
    /// It is flushed.
    pub flushed: bool,
    /// It is being flushed.
    pub in_flight: bool,
    /// It is freed: the frame may be entered again.
    pub freed: bool,
    /// It is being cleaned.
    pub cleaning: bool,
}
