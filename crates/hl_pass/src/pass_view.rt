ghost use Rattle.std.specs.Prelude.{◌≡◌};
ghost use Rattle.hl_pass.specs.Passes.{is_up, rested, rested_in};

use hl_model::View;

/// What a pass keeps of the slot for which it acts.
#[derive(Drop)]
pub struct PassView {
    pub slot: u64,
    /// What its acquire gave the slot.
    pub stamp: u64,
    /// The slot's epoch, of the last acquire or refresh.
    pub epoch: u64,
    /// The slot's view at the last locked call.
    pub held: View,
    /// What the pass has seen since.
    pub view: View,
}

impl PassView {
    /// Whether it saw no offset without the lock that its slot didn't.
    #[inline(always)]
    pub fn is_up(&self) -> bool
        ensures { result ≡ is_up self.now }
    {
        self.view.read_only == self.held.read_only && self.view.head == self.held.head
    }

    /// Its slot has this epoch and this view.
    #[inline(always)]
    pub fn rest(&mut self, epoch: u64, view: View)
        ensures { self.new ≡ rested epoch view self.old }
    {
        self.epoch = epoch;
        self.held = view;
        self.view = view;
    }

    /// The same with this view, if its slot is protected.
    #[inline(always)]
    pub fn rest_in(&mut self, epoch: u64, view: Option<View>)
        ensures { self.new ≡ rested_in view epoch self.old }
    {
        let view = match view {
            Some(view) => view,
            None => self.view,
        };
        self.rest(epoch, view);
    }
}
