//! The crew: threads that bring the pages of a domain to a device, and free their frames.
//!
//! After the HybridLog of FASTER (Chandramouli, Prasaad, Kossmann, Levandoski, Hunter, Barnett, SIGMOD 2018), where a
//! page that every thread sees as read-only is written to the log's device, and its frame is used again.
//! [`Crew::serve`] and [`run_crew`] run four threads on a `Domain` that others may use at the same time, the one until a
//! [`Stop`] is given, as a [`Duty`] says, the other for a number of turns:
//!
//! | Thread | What it does |
//! |---|---|
//! | the flusher | in a turn: makes the lag's steps that it wants, runs safe actions, and cuts the journal where its limits say so |
//! | two writers | under [`Crew::serve`]: take a sealed page, copy it without the lock, write its image, and answer it |
//! | the cleaner | takes a closed page, sweeps it without the lock, and frees its frame; a page whose done was refused it keeps, and answers before it takes another |
//!
//! Under [`run_crew`] the flusher takes the pages, sends them to the writers, which copy and write them, and answers
//! each.
//!
//! # What memory it takes
//!
//! A crew takes all its memory before it makes a thread: for each writer the words and the image of a page, and two
//! channels under [`run_crew`]. What its threads do then takes none. Where other threads are to begin only once nothing
//! can be refused for memory, open the [`CrewBuffers`] before them, and call [`Crew::serve_with`] in place of
//! [`Crew::serve`]; [`CrewRiders::put_back_reserved`] takes none either.
//!
//! # What an acknowledgement can do
//!
//! Under [`run_crew`] the flusher and the writers talk by two channels. No clause says what a channel delivers, so
//! nothing rests on it: the flusher keeps the load of each page that it sent in a [`Pouch`], and
//! answers a flush only through it. A page whose load isn't there is refused, and neither pouch nor
//! share changes: a clause of [`Pouch::answer`]. Under [`Crew::serve`] one rider takes and answers a page,
//! and none goes by a channel.
//!
//! # When a page may be written
//!
//! A writer tells a [`Gate`] which page it has begun with, by a [`Taken`], which only a load makes, and asks whether it may
//! write it; [`OpenGate`] always says yes. A writer asks at most 1,000,000 times, and then the page is answered as failed: it may be taken
//! again.
//!
//! # How it waits
//!
//! Whoever looks for pages and finds none, or meets a write that failed, sleeps until the flusher has made another
//! turn; so does whoever meets a journal that is full again once it was cut. A flusher that serves sleeps after a turn
//! that entered no step and cut none, until a page was written or somebody calls
//! [`Stop::ring`], and at most a millisecond. Each such turn more in a row doubles that, up to 160 milliseconds. It
//! makes the lag's steps whether or not other actions wait: a raise and a settle once its last settle has taken
//! effect, a shift and a close once its last close has. A flusher that makes a number of turns makes them if no
//! action waits or is taken, and waits for an acknowledgement of each page that it sent.
//!
//! # How it ends
//!
//! The flusher ends once its turns are over or its stop is given, or earlier if the journal is full, unless it serves
//! by a duty that cuts, or if a channel fails; the others end once they find no page. A crew that serves then makes
//! at most 1,000 rounds in the thread that called it, of a turn of the flusher and all looks of the others, up to the
//! first in which the flusher got nowhere or failed. At the end no page that it took is in flight, and no action that
//! it took is still taken. What was taken and can't be answered is forsaken: such a page stays in flight, and such an
//! action stays taken. A page that was swept is forsaken only once the crew has ended: it stays in cleaning. Riders and page writers come back by value, even if a thread couldn't be
//! made: each lies under a lock that its thread takes once.
//!
//! # What is proved of it
//!
//! Of a crew as a whole:
//!
//! - Riders and page writers come back: that is in its types. A refusal is `OutOfMemory`, or the `Size` of a duty.
//! - Where there is a report, each thread did all its work within the limits that [`CrewReport::limits`] has, from what it was
//!   given on: the flusher its turns, the writers and the cleaner their looks; and what the report counts is what they counted.
//! - A crew that never cuts made no call that cut a step of the journal.
//! - A rider that comes back stored only 0s of pages that a call of its own had just taken to clean, if that held of
//!   all riders before. So a crew that took no page to clean changed no word.
//! - Under [`Crew::serve`] each page that a rider flushed is with that rider's page writer, as the image of the words
//!   that it copied between its take and its answer. By `hl_images` they are the page's at the end.
//! - A crew that served made its last rounds once its threads had done their work.
//! - Of a crew that was to serve and was refused each thread did all its work or nothing, and there were no last rounds.
//!
//! Inside, of each function that does a step, what it made under the domain's lock, in what order, and what it counted:
//!
//! | What | Is proved to |
//! |---|---|
//! | a flusher's turn | make those of the lag's steps that it wants, in their order, up to the first that is refused, and end if the journal is full; run each action that it took, up to four, and answer it done, if the actions end well; end by the cut that its limits say, if all ends well; fail for the reason of the part that failed |
//! | all turns | be as many as were asked for, or go on until the stop was given, if none fails |
//! | a nap | be as long as the number of turns in a row that got nowhere says |
//! | a page that a writer takes itself | be taken by its rider, have its words loaded once the gate let it through, and be answered: as written, if the image of exactly these words was; as failed, if nothing was written, or the write failed and was counted so |
//! | pages that are sent | be taken up to four a turn, or up to the first take that finds none; be answered and counted once each: as many acknowledgements as were sent, as each says, and each page that none of them named as failed |
//! | a full journal | be cut only if the limits say so; what ends something is then tried again, up to a thousand times, and a page is looked for once more |
//! | a page reported as clean | have been swept; where its done is refused, be kept, and answered before another is taken |
//! | a page that a gate is told of | have been taken |
//! | who looks for pages | look until a look fails, or one is in vain that was begun once the flusher had ended |
//!
//! No clause says that a thread gets on, sleeps or is woken, or what a channel delivers: so under [`run_crew`] a writer may
//! end before it is told to. What lies under a lock is known by its type alone; so the type of a thread's seat says
//! what the thread was given, and what it does from there on.
//!
//! # Modules
//!
//! | Module | What it has |
//! |---|---|
//! | `crew`, `calls` | a crew by names; the calls |
//! | `memory` | what memory a crew takes |
//! | `run`, `threads`, `rounds`, `whole` | what the threads share; the threads; the end; that all were made |
//! | `state`, `seats`, `given` | what each thread has of its own; its lock; what is known of that |
//! | `duty`, `stop` | what a crew that serves is given; what ends it |
//! | `limits`, `mode` | what all its threads keep to; for how long they work |
//! | `flusher`, and in it `lag`, `asked`, `actions`, `pages`, `acknowledgements` | the flusher's turn, a part each |
//! | `looks`, `ended` | how a thread looks for pages; whether the flusher has ended |
//! | `sleepers`, `woken` | where a thread sleeps; who is woken |
//! | `ends`, `cutting` | how what was taken is ended; how the journal is cut |
//! | `writer`, and in it `buffers`, `write` and `flush`; `cleaner` | the other threads |
//! | `pouch` | the pages that wait for their acknowledgement |
//! | `gate`, `messages`, `counts` | when a page may be written; what the channels carry; what is counted |
#![tactic(auto)]

mod calls;
mod cleaner;
mod counts;
mod crew;
mod cutting;
mod duty;
mod ended;
mod ends;
mod flusher;
mod gate;
mod given;
mod limits;
mod looks;
mod memory;
mod messages;
mod mode;
mod pouch;
mod rounds;
mod run;
mod seats;
mod sleepers;
mod state;
mod stop;
mod threads;
mod whole;
mod woken;
mod writer;

pub use calls::{CrewEnd, run_crew};
pub use crew::{Crew, CrewReport, CrewRiders};
pub use cutting::{cut_if_due, make_room};
pub use duty::Duty;
pub use ends::{ATTEMPTS, Ends, end_by_tries};
pub use gate::{Gate, OpenGate, Taken};
pub use limits::{Cuts, Limits};
pub use memory::CrewBuffers;
pub use pouch::Pouch;
pub use stop::Stop;
