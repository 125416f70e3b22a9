//! The rows that the threads of a log and its crew need, made before the first of them.
ghost use Rattle.std.specs.Prelude.{◌≡◌, ◌++◌, ◌+◌, ◌∷◌, ◌<◌, ◌≤◌, [], map, length, vec_capacity, is_some, IfOk, IfErr};
ghost use Rattle.hl_model.specs.declared.fault.Fault.TheVariants.{OutOfMemory};
ghost use Rattle.hl_crew.specs.Riders.{riders_of};
ghost use Rattle.hl.specs.Configs.{behind};
ghost use Rattle.hl.specs.LastSession.{one_or_none};

use crate::log::Log;
use crate::shared::Outs;
use hl_action::Task;
use hl_crew::{CrewBuffers, CrewRiders};
use hl_model::{Fault, with_room};
use hl_words::{Realm, Rider};
use std::alloc::Global;
use std::marker::Model;

/// What one thread returned, with its rider.
pub(crate) type Worked<L, T> = (Result<T, Fault>, Rider<L>);

/// A thread's place, where its rider waits for it, and where it leaves what it returned. Until it has ended, a fault stands
/// there.
#[derive(Drop)]
pub(crate) struct Place<L: Realm, T> {
    // None only while the thread runs.
    pub(crate) held: Option<Worked<L, T>>,
}

impl<L: Realm, T> Model for Place<L, T> {
    ghost use Rattle.std.specs.Prelude.{◌≡◌, Result, Err, is_some, true};
    ghost use Rattle.std.specs.Option.{unwrap_or};
    ghost use Rattle.hl_model.specs.declared.fault.Fault.{Fault};
    ghost use Rattle.hl_model.specs.declared.fault.Fault.TheVariants.{Empty};
    ghost use Rattle.hl_words.specs.States.{RiderState, new_rider};

    ghost Value = { Result T Fault × RiderState };

    ghost view = { λ place. unwrap_or place.held (Err Empty, new_rider 0) };

    ghost invariant = { λ place. is_some place.held ≡ true };
}

impl<L: Realm, T> Place<L, T> {
    // The place of a thread that hasn't begun.
    fn new(rider: Rider<L>) -> Place<L, T>
        ensures { result.1 ≡ rider }
    {
        Place {
            held: Some((Err(Fault::Empty), rider)),
        }
    }

    // What the thread returned, and its rider.
    fn into_parts(self) -> Worked<L, T>
        ensures { result ≡ self }
    {
        let Place { held } = self;
        held.unwrap()
    }
}

/// A crew's riders, and the memory that it takes.
#[derive(Drop)]
pub(crate) struct CrewParts<L: Realm> {
    pub(crate) riders: CrewRiders<L>,
    pub(crate) buffers: CrewBuffers<L>,
}

/// All rows that the threads of a log and its crew need, and their riders: once these are there, nobody asks for memory.
#[derive(Drop)]
pub(crate) struct Rows<L: Realm, T> {
    pub(crate) crew: CrewParts<L>,
    /// A place for each thread, with its rider.
    pub(crate) places: Vec<Place<L, T>>,
    /// Where the threads' results will stand.
    pub(crate) outs: Outs<T>,
    /// Where all riders will stand, with room for two more.
    pub(crate) riders: Vec<Rider<L>>,
    ghost no_outs: { outs.items ≡ [] },
    ghost room_for_outs: { length places.items ≤ vec_capacity outs },
    ghost no_riders: { riders.items ≡ [] },
    ghost room_for_riders: { length places.items + 6 ≤ vec_capacity riders },
}

impl<L: Realm, T: Drop> Rows<L, T> {
    /// The rows for these riders, the last four of which are the crew's.
    ///
    /// Fault: `OutOfMemory` if memory was refused.
    pub(crate) fn open<F: Task>(
        alloc: Global,
        log: &Log<L, F>,
        mut riders: Vec<Rider<L>>,
    ) -> Result<Rows<L, T>, Fault>
        requires four { 4 ≤ length riders.items }
        requires few { length riders.items ≤ 2048 }
        ensures same { IfOk result (λ rows.
            map (λ place. place.1) rows.places.items ++ riders_of rows.crew.riders ≡ riders.items) }
        ensures memory { IfErr result (λ fault. fault ≡ OutOfMemory) }
    {
        let Some(crew) = CrewRiders::take_from(&mut riders) else {
            unreachable!()
        };
        let buffers = CrewBuffers::open(alloc, log)?;
        let threads = riders.len() as u64;
        let outs = with_room(alloc, threads)?;
        let back = with_room(alloc, threads + 6)?;
        let places = places_of(with_room(alloc, threads)?, riders);
        Ok(Rows {
            crew: CrewParts {
                riders: crew,
                buffers,
            },
            places,
            outs,
            riders: back,
        })
    }
}

/// The same with one rider more, who finishes the log, one who flushes it before, if that is wanted, and a row for what all
/// threads returned.
#[derive(Drop)]
pub(crate) struct LastRows<L: Realm, T> {
    pub(crate) rows: Rows<L, T>,
    pub(crate) last: Rider<L>,
    pub(crate) flusher: Option<Rider<L>>,
    /// Where the values will stand that the threads returned.
    pub(crate) all: Vec<T>,
    ghost none: { all.items ≡ [] },
    ghost room: { length rows.places.items ≤ vec_capacity all },
}

impl<L: Realm, T: Drop> LastRows<L, T> {
    /// The rows for these riders, the last of which flushes, if that is wanted, the one before it finishes, and the four
    /// before that are the crew's.
    ///
    /// Fault: `OutOfMemory` if memory was refused.
    pub(crate) fn open<F: Task>(
        alloc: Global,
        log: &Log<L, F>,
        mut riders: Vec<Rider<L>>,
        flush: bool,
    ) -> Result<LastRows<L, T>, Fault>
        requires enough { 4 + behind flush ≤ length riders.items }
        requires few { length riders.items ≤ 2048 }
        ensures same { IfOk result (λ all. (map (λ place. place.1) all.rows.places.items
            ++ riders_of all.rows.crew.riders) ++ all.last ∷ one_or_none all.flusher ≡ riders.items) }
        ensures flusher { IfOk result (λ all. is_some all.flusher ≡ flush) }
        ensures memory { IfErr result (λ fault. fault ≡ OutOfMemory) }
    {
        let flusher = pop_if(&mut riders, flush);
        let last = pop_last(&mut riders);
        let rows = Rows::open(alloc, log, riders)?;
        let all = with_room(alloc, rows.places.len() as u64)?;
        Ok(LastRows {
            rows,
            last,
            flusher,
            all,
        })
    }
}

// Takes the last rider.
fn pop_last<L: Realm>(riders: &mut Vec<Rider<L>>) -> Rider<L>
    requires { 0 < length riders.old.items }
    ensures { riders.old.items ≡ riders.new.items ++ result ∷ [] }
{
    let Some(last) = riders.pop() else {
        unreachable!()
    };
    last
}

// Takes the last rider, if that is wanted.
fn pop_if<L: Realm>(riders: &mut Vec<Rider<L>>, wanted: bool) -> Option<Rider<L>>
    requires { behind wanted ≤ length riders.old.items + 1 }
    ensures popped { riders.old.items ≡ riders.new.items ++ one_or_none result }
    ensures wanted { is_some result ≡ wanted }
{
    if wanted { riders.pop() } else { None }
}

// A place for each of these riders, put into an empty row with room for them.
fn places_of<L: Realm, T: Drop>(room: Vec<Place<L, T>>, riders: Vec<Rider<L>>) -> Vec<Place<L, T>>
    requires empty { room.items ≡ [] }
    requires room { length riders.items ≤ vec_capacity room }
    ensures { map (λ place. place.1) result.items ≡ riders.items }
{
    let mut places = room;
    for rider in riders {
        places.push_reserved(Place::new(rider));
    }
    places
}

/// Parts what threads returned from their riders: each is put into an empty row with room for it, in the same order.
pub(crate) fn part<L: Realm, T: Drop>(
    worked: Vec<Place<L, T>>,
    outs: Outs<T>,
    riders: Vec<Rider<L>>,
) -> (Outs<T>, Vec<Rider<L>>)
    requires no_outs { outs.items ≡ [] }
    requires room_for_outs { length worked.items ≤ vec_capacity outs }
    requires no_riders { riders.items ≡ [] }
    requires room_for_riders { length worked.items ≤ vec_capacity riders }
    ensures outs { result.0.items ≡ map (λ one. one.0) worked.items }
    ensures riders { result.1.items ≡ map (λ one. one.1) worked.items }
    ensures capacity { vec_capacity result.1 ≡ vec_capacity riders }
{
    let mut all = outs;
    let mut back = riders;
    for one in worked {
        let (out, rider) = one.into_parts();
        all.push_reserved(out);
        back.push_reserved(rider);
    }
    (all, back)
}
