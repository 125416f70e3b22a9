ghost use Rattle.std.specs.Prelude.{◌≡◌};
ghost use Rattle.hl_crew.specs.Wakes.{woken_by, all_woken};

/// Who is woken of those that look for pages.
#[derive(Clone, Copy)]
pub(crate) struct Woken {
    pub(crate) writers: bool,
    pub(crate) cleaner: bool,
}

impl Woken {
    /// Returns who may find a page, if so many frames are open, sealed, flushed, closed and free: the writers if one is
    /// sealed, the cleaner if one is closed.
    pub(crate) fn by(frames: [u64; 5]) -> Woken
        ensures { result ≡ woken_by frames }
    {
        let [_, sealed, _, closed, _] = frames;
        Woken {
            writers: sealed > 0,
            cleaner: closed > 0,
        }
    }

    /// Returns all of them.
    pub(crate) fn all() -> Woken
        ensures { result ≡ all_woken }
    {
        Woken {
            writers: true,
            cleaner: true,
        }
    }
}
