ghost use Rattle.std.specs.Prelude.{◌≡◌};
ghost use Rattle.hl_answers.specs.Outcomes.{six_outcome, no_six, snapshot_outcome, no_snapshot};

use hl_model::{Six, Snapshot};

/// The six offsets; the number is 0, or 255 if no core is open.
#[repr(C)]
#[derive(Clone, Copy, Drop)]
pub struct SixOutcome {
    pub number: u64,
    pub closed: u64,
    pub head: u64,
    pub flushed: u64,
    pub safe_read_only: u64,
    pub read_only: u64,
    pub tail: u64,
}

/// All quantities; the number is 0, or 255 if no core is open. The frames are those open, sealed, flushed,
/// closed and free.
#[repr(C)]
#[derive(Clone, Copy, Drop)]
pub struct SnapshotOutcome {
    pub number: u64,
    pub epoch: u64,
    pub safe: u64,
    pub protected: u64,
    pub pending: u64,
    pub taken: u64,
    pub six: SixOutcome,
    pub frames: [u64; 5],
}

impl SixOutcome {
    #[inline(always)]
    pub fn of(six: Six) -> SixOutcome
        ensures { result ≡ six_outcome six }
    {
        SixOutcome {
            number: 0,
            closed: six.closed,
            head: six.head,
            flushed: six.flushed,
            safe_read_only: six.safe_read_only,
            read_only: six.read_only,
            tail: six.tail,
        }
    }

    pub fn no_core() -> SixOutcome
        ensures { result ≡ no_six }
    {
        SixOutcome {
            number: 255,
            closed: 0,
            head: 0,
            flushed: 0,
            safe_read_only: 0,
            read_only: 0,
            tail: 0,
        }
    }
}

impl SnapshotOutcome {
    pub fn of(snapshot: Snapshot) -> SnapshotOutcome
        ensures { result ≡ snapshot_outcome snapshot }
    {
        let six = SixOutcome::of(snapshot.six);
        let frames = snapshot.frames;
        SnapshotOutcome {
            number: 0,
            epoch: snapshot.epoch,
            safe: snapshot.safe,
            protected: snapshot.protected,
            pending: snapshot.pending,
            taken: snapshot.taken,
            six,
            frames,
        }
    }

    pub fn no_core() -> SnapshotOutcome
        ensures { result ≡ no_snapshot }
    {
        let frames = [0; 5];
        SnapshotOutcome {
            number: 255,
            epoch: 0,
            safe: 0,
            protected: 0,
            pending: 0,
            taken: 0,
            six: SixOutcome::no_core(),
            frames,
        }
    }
}
