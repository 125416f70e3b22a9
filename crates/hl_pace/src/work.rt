ghost use Rattle.std.specs.Prelude.{◌≤◌, IfSome};

use hl_model::Sizes;

/// What each thread does.
#[derive(Clone, Copy, PartialEq, Eq)]
pub(crate) enum Kind {
    Lock,
    Refresh,
    Allocate,
    Store,
    Load,
    Look,
    Add,
    Lease,
    KeepUp,
    LoadBeside,
    Cut,
    Past,
}

/// What is to be done, and the sizes of the domain.
#[derive(Clone, Copy)]
pub(crate) struct Work {
    pub(crate) kind: Kind,
    /// How many threads: 1 to 8.
    pub(crate) threads: u64,
    /// How many calls each makes.
    pub(crate) calls: u64,
    pub(crate) params: Sizes,
}

/// The work that the program's words name; `None` if they name none.
pub(crate) fn read(words: &[String]) -> Option<Work>
    ensures { IfSome result (λ work. (1 ≤ work.threads) × (work.threads ≤ 8)) }
{
    let kind = kind_of(words.get(1)?)?;
    let threads = words.get(2)?.parse().ok()?;
    let calls = words.get(3)?.parse().ok()?;
    let params = sizes_of(words.get(4..)?)?;
    if !(1..=8).contains(&threads) {
        return None;
    }
    Some(Work {
        kind,
        threads,
        calls,
        params,
    })
}

// The sizes that the last words name; those of a domain of 8 MiB if there are no such words.
fn sizes_of(words: &[String]) -> Option<Sizes> {
    if words.is_empty() {
        return Sizes::checked(4096, 256, 8, 64);
    }
    let [page_size, frames, slots, drain] = words else {
        return None;
    };
    let (page_size, frames) = (page_size.parse().ok()?, frames.parse().ok()?);
    let (slots, drain) = (slots.parse().ok()?, drain.parse().ok()?);
    Sizes::checked(page_size, frames, slots, drain)
}

// The kind of this name.
fn kind_of(name: &str) -> Option<Kind> {
    Some(match name {
        "lock" => Kind::Lock,
        "refresh" => Kind::Refresh,
        "allocate" => Kind::Allocate,
        "store" => Kind::Store,
        "load" => Kind::Load,
        "look" => Kind::Look,
        "add" => Kind::Add,
        "lease" => Kind::Lease,
        "keep_up" => Kind::KeepUp,
        "load_beside" => Kind::LoadBeside,
        "cut" => Kind::Cut,
        "past" => Kind::Past,
        _ => return None,
    })
}
