//! The keeper: the quantities of an allocator that riders share, with the journal of their steps.
//!
//! A `Domain` has one under its lock. With a lock of your own, take a [`Keeper`] and its `Words`
//! apart: [`unlocked`] has the calls that take no lock.
//!
//! # Standing at a list
//!
//! A keeper stands at a list of accepted steps where its core does, the list is the steps that were
//! cut and then its journal, its base is that of the steps cut, the master's words were stored as
//! its raises, shifts, bumps and dones say, and the riders' steps in all are as many as the list
//! has: `KeeperStands` in `specs/Keepers.antt`. Each keeper stands at some list: that is
//! in its type. Each locked call says: at whatever list the keeper stood, the answer is the
//! definitions' after that list and the pass's touches, and the keeper then stands at the list with
//! both, if it was accepted. A refused call changes nothing, and what was handed in comes back.
//!
//! # The order of the faults
//!
//! First `Stranger`: a pass whose stamp or held view isn't the slot's, or, in a refresh, that saw an offset
//! above the present one; a page or an action of another domain. Then `JournalFull`. Then the core's, in
//! their order. [`worked`] has the refusal of a pass of another stamp than its slot's, which no call makes.
//!
//! # Touches
//!
//! Nine calls take no lock: a pass's `look`, `keeps_up`, `store`, `load`, `region`, `fetch_add` and
//! `compare_exchange`, and a rider's `copy_page` and `sweep`. Of these a store, an add, an exchange that stored, and a
//! look that raised the view are touches. Touches are lawful in the pass's own view, and enter the
//! journal, in their order, before the step of the pass's next locked call: what the slot's view
//! allows is accepted there, whatever others did since. So touches refuse a call for the room that
//! they need in the journal, and for nothing else.
//!
//! A pass lends its rider for the calls that need one ([`Pass::rider_mut`]): so a protected thread
//! bumps, takes, cuts and raises. What the rider enters meanwhile stands before the touches, which
//! stay in the pass, and no action that it stores is safe before they enter: the slot keeps its
//! epoch until the pass refreshes or is released.
//!
//! Who a pass is, which stamps acquires give and what a view allows is `hl_pass`'s, on which the log for C stands too:
//! the core takes a pass's touches as one look, since a write leaves it as it is.
//!
//! # Who holds it up
//!
//! `holders` tells the oldest pending action's ticket and the slots at an epoch that isn't above
//! it; `frame_of` tells the state of a page's frame, for example of the page that a `Busy` names.
//! They are questions: no step, and no touch.
//!
//! No call after [`Keeper::open`] may answer that memory was refused. That the journal has exactly
//! the room that opening made, and that the row of stamps never grows, is in their types.
#![tactic(auto)]

mod actions;
mod call;
mod cut;
mod ending;
mod exchange;
mod journal;
mod keeper;
mod lease;
mod load;
mod look;
mod news;
mod noted;
mod offsets;
mod pages;
mod pass;
mod queries;
mod rider;
mod slots;
mod sweep;
mod touches;
pub mod unlocked;
pub mod worked;

pub use arrayvec::ArrayVec;
pub use ending::Ending;
pub use hl_action::{AnyAnswer, Firing, Kept, NoJob, Promise, Ran, Ready, Task};
pub use hl_core::Holder;
pub use hl_counts::CountTable;
pub use hl_drain::{Action, Ask, Drain};
pub use hl_epoch::{Epochs, ScanTable};
pub use hl_laws::Base;
pub use hl_model::{
    Fault, FrameState, HasSizes, Params, RawSizes, Reply, Six, Sizes, Snapshot, Step, View,
};
pub use hl_pass::Region;
pub use hl_words::{Master, Past, Realm, Rider, Seed, Words};
pub use keeper::Keeper;
pub use lease::Lease;
pub use load::{Broom, Load, PageJob};
pub use pass::Pass;
