//! Sizes that an engine wants, in a keeper that stands alone and in a domain: all frames are filled, flushed, closed
//! and freed, and as many actions stored as there are places.
ghost use Rattle.std.specs.Prelude.{◌≡◌};
ghost use Rattle.hl_words.specs.States.{IsSeedOf};

use crate::alone::open_alone;
use crate::call::Call;
use crate::follow::ask_all;
use crate::jobs::STAMP;
use crate::play::Play;
use crate::shared::open_shared;
use hl_counts::CountTable;
use hl_domain::{Reply, Step};
use hl_epoch::{Epochs, ScanTable};
use hl_model::Sizes;
use hl_words::{Realm, Seed};
use std::alloc::Global;
use std::marker::Brand;
use std::process::Abort;
use std::sync::Wait;
use std::test::Fail;

/// Words of a page.
const WORDS: u64 = 1 << 14;

/// Frames.
const FRAMES: u64 = 256;

/// Places for actions.
const ACTIONS: u64 = 1024;

/// All steps of the round, and then some.
const JOURNAL: u64 = 5000;

fn makes<E: Epochs + Drop, L: Realm>(
    rt: &(impl Wait + Abort),
    play: &mut Play<E, L>,
    step: Step,
    reply: Reply,
) {
    assert_eq!(rt; play.answer(rt, Call::Step(step)), Ok(reply), "{step:?}");
}

// A slot fills each frame, and uses the last word of all. Then as many actions wait as there are places.
fn fill<E: Epochs + Drop, L: Realm>(rt: &(impl Wait + Abort), play: &mut Play<E, L>) {
    ask_all(rt, play, "acquire 0 -> view 0 0 0");
    for page in 0..FRAMES {
        makes(
            rt,
            play,
            Step::Allocate { t: 0, n: WORDS },
            Reply::At(page * WORDS),
        );
    }
    ask_all(
        rt,
        play,
        "alloc 0 1 -> fault 15 Busy page 256\nwrite 0 4194303 7 -> written\nread 0 4194303 -> value 7",
    );
    for ended in 0..ACTIONS {
        makes(rt, play, Step::Bump { tag: 9 }, Reply::Ticket(ended + 1));
    }
    ask_all(
        rt,
        play,
        "bump 9 -> fault 5 DrainFull\nrefresh 0 -> view 0 0 4194304",
    );
}

// Each action is taken, and done in the same order; then all pages are settled.
fn settle<E: Epochs + Drop, L: Realm>(rt: &(impl Wait + Abort), play: &mut Play<E, L>) {
    for ended in 0..ACTIONS {
        makes(rt, play, Step::Take, Reply::Taken(ended + 1));
    }
    ask_all(rt, play, "bare -> bumped 1025\nbump 9 -> fault 5 DrainFull");
    for ended in 0..ACTIONS {
        makes(rt, play, Step::Done { ticket: ended + 1 }, Reply::Ran(9));
    }
    ask_all(
        rt,
        play,
        "raise 4194304 -> read_only 4194304\nsettle -> ticket 1026\nrefresh 0 -> view 4194304 0 4194304",
    );
    ask_all(
        rt,
        play,
        "take -> taken 1026\ndone 1026 -> safe_read_only 4194304",
    );
}

// Each page is flushed, closed, swept and freed, and the first frame is entered again.
fn free<E: Epochs + Drop, L: Realm>(rt: &(impl Wait + Abort), play: &mut Play<E, L>) {
    for page in 0..FRAMES {
        makes(rt, play, Step::FlushTake, Reply::Page(page));
        makes(
            rt,
            play,
            Step::FlushDone { page, ok: true },
            Reply::Flushed((page + 1) * WORDS),
        );
    }
    ask_all(
        rt,
        play,
        "shift 4194304 -> head 4194304\nclose -> ticket 1027\nrefresh 0 -> view 4194304 4194304 4194304",
    );
    ask_all(rt, play, "take -> taken 1027\ndone 1027 -> closed 4194304");
    for page in 0..FRAMES {
        makes(rt, play, Step::CleanTake, Reply::Page(page));
        makes(rt, play, Step::CleanDone { page }, Reply::Freed(page));
    }
    ask_all(
        rt,
        play,
        "alloc 0 16384 -> at 4194304\nread 0 4210687 -> value 0\nrelease 0 -> left",
    );
}

fn round<E: Epochs + Drop, L: Realm>(rt: &(impl Wait + Abort), play: &mut Play<E, L>) {
    fill(rt, play);
    settle(rt, play);
    free(rt, play);
    let (now, kept, _) = play.asked.snapshot(rt);
    assert!(rt; now.frames == [1, 0, 0, 0, 255] && now.protected == 0 && now.epoch == 1028);
    assert_eq!(rt; kept, 4368);
}

fn both<E: Epochs + Drop, L: Realm, M: Realm>(
    rt: &(impl Wait + Abort),
    alloc: Global,
    one: Seed,
    other: Seed,
) -> Result<(), Fail>
    requires one { IsSeedOf L.name L.parts L.table one }
    requires one_named { (one.sizes ≡ L.sizes) × (STAMP ≡ L.stamp) }
    requires other { IsSeedOf M.name M.parts M.table other }
    requires other_named { (other.sizes ≡ M.sizes) × (STAMP ≡ M.stamp) × (JOURNAL ≡ M.limit) }
{
    round(rt, &mut open_alone::<E, L>(alloc, one, JOURNAL, STAMP)?);
    round(rt, &mut open_shared::<E, M>(alloc, other, JOURNAL, STAMP)?);
    Ok(())
}

#[test]
fn wide_sizes(rt: HostRuntime) -> Result<(), Fail> {
    let params = Sizes::checked(WORDS, FRAMES, 128, ACTIONS).ok_or("sizes in range")?;
    let (one, other) = (
        Seed::make(rt.alloc(), params, 2)?,
        Seed::make(rt.alloc(), params, 2)?,
    );
    both::<ScanTable, Brand, Brand>(&rt, rt.alloc(), one, other)?;
    let (one, other) = (
        Seed::make(rt.alloc(), params, 2)?,
        Seed::make(rt.alloc(), params, 2)?,
    );
    both::<CountTable, Brand, Brand>(&rt, rt.alloc(), one, other)
}
