//! An answer's line, made from its end.
ghost use Rattle.std.specs.Prelude.{◌≡◌, ◌+◌, ◌^◌, ◌<◌, ◌≤◌, true, [], ◌∷◌, ◌++◌, length};
ghost use Rattle.std.specs.Str.{is_utf8};
ghost use Rattle.hl_line.specs.Lines.{spaced, worded};
ghost use Rattle.hl_line.specs.Replies.{reply_text, fault_text, fields_of};

use crate::fault::name;
use arrayvec::ArrayString;
use hl_model::{Fault, Reply};
use itoa::write_digits;
use std::marker::Model;

/// The room for a line; every answer is shorter.
const ROOM: usize = 160;

/// The line that answers a step, with its LF. It is made from its end: the digits of a number, which come out
/// last first, are written where they stay. Contracts see the bytes.
#[derive(Drop)]
pub struct AnswerLine {
    bytes: [u8; ROOM],
    // Where the line begins.
    from: usize,
}

impl Model for AnswerLine {
    ghost use Rattle.std.specs.Prelude.{◌≡◌, ◌≤◌, ℕ, List, length, drop, true};
    ghost use Rattle.std.specs.Str.{is_utf8};

    ghost Value = { List ℕ };

    ghost view = { λ a. drop a.from a.bytes };

    ghost invariant = { λ a. (a.from ≤ 160) × (length a.bytes ≡ 160)
        × (is_utf8 (drop a.from a.bytes) ≡ true) };
}

impl AnswerLine {
    /// No line.
    pub fn new() -> AnswerLine
        ensures { result ≡ [] }
    {
        AnswerLine {
            bytes: [0; ROOM],
            from: ROOM,
        }
    }

    /// Its bytes.
    #[inline(always)]
    pub fn as_bytes(&self) -> &[u8]
        ensures value { result.now ≡ self.now }
        ensures text { is_utf8 result.now ≡ true }
        ensures short { length result.now ≤ 160 }
    {
        &self.bytes[self.from..]
    }

    /// Makes the line that answers an accepted step.
    pub fn set_reply(&mut self, reply: &Reply)
        ensures { self.new ≡ reply_text reply.now ++ 10 ∷ [] }
    {
        self.clear();
        self.add_reply(*reply);
    }

    /// Makes the line that answers a refused step: the fault's number, its name and its fields.
    pub fn set_fault(&mut self, fault: &Fault)
        ensures { self.new ≡ fault_text fault.now ++ 10 ∷ [] }
    {
        self.clear();
        self.add_fault(*fault);
    }

    // The bytes as text.
    fn text(&self) -> ArrayString<160>
        ensures { result.bytes ≡ self.now }
    {
        let mut text = ArrayString::new();
        match str::from_utf8(self.as_bytes()) {
            Ok(whole) => text.push_str(whole),
            // All that was added is text.
            Err(_) => unreachable!(),
        }
        text
    }

    // Only the LF.
    #[inline(always)]
    fn clear(&mut self)
        ensures { self.new ≡ 10 ∷ [] }
    {
        self.from = ROOM;
        self.add_word("\n");
    }

    // Puts an accepted step's answer before the LF.
    #[inline(always)]
    fn add_reply(&mut self, reply: Reply)
        requires { length self.old ≤ 1 }
        ensures { self.new ≡ reply_text reply ++ self.old }
    {
        match reply {
            Reply::Entered { epoch, view } => {
                self.add_three(" view", view.read_only, view.head, view.tail);
                self.add_one("epoch", epoch);
            }
            Reply::Left => self.add_alone("left"),
            Reply::Ticket(ticket) => self.add_one("ticket", ticket),
            Reply::Bumped(epoch) => self.add_one("bumped", epoch),
            Reply::Taken(ticket) => self.add_one("taken", ticket),
            Reply::Ran(tag) => self.add_one("ran", tag),
            Reply::Answer(answer) => self.add_one("answer", answer),
            Reply::Settled(address) => self.add_one("safe_read_only", address),
            Reply::Closed(address) => self.add_one("closed", address),
            Reply::Raised(address) => self.add_one("read_only", address),
            Reply::Shifted(address) => self.add_one("head", address),
            Reply::At(address) => self.add_one("at", address),
            Reply::Looked(view) => self.add_three("view", view.read_only, view.head, view.tail),
            Reply::Written => self.add_alone("written"),
            Reply::Readable => self.add_alone("readable"),
            Reply::Value(word) => self.add_one("value", word),
            Reply::Page(page) => self.add_one("page", page),
            Reply::Flushed(address) => self.add_one("flushed", address),
            Reply::Freed(page) => self.add_one("freed", page),
        }
    }

    // Puts a refused step's answer before the LF.
    fn add_fault(&mut self, fault: Fault)
        requires { length self.old ≤ 1 }
        ensures { self.new ≡ fault_text fault ++ self.old }
    {
        self.add_fields(fault);
        self.add_word(name(fault));
        self.add_word(" ");
        self.add_one("fault", u64::from(fault.number()));
    }

    // Puts the fields of a fault before the line, each by its name and its number.
    fn add_fields(&mut self, fault: Fault)
        requires { length self.old ≤ 1 }
        ensures bytes { self.new ≡ fields_of fault ++ self.old }
        ensures short { length self.new ≤ 60 }
    {
        match fault {
            Fault::NotReady { front, safe } => {
                self.add_one(" safe", safe);
                self.add_one(" front", front);
            }
            Fault::Busy { page } => self.add_one(" page", page),
            Fault::Below { read_only } => self.add_one(" read_only", read_only),
            Fault::Beyond { tail } => self.add_one(" tail", tail),
            Fault::Evicted { head } => self.add_one(" head", head),
            Fault::Stranger { stamp } => self.add_one(" stamp", stamp),
            Fault::BadLine { n } => self.add_one(" n", n),
            _ => {}
        }
    }

    // Puts a word without numbers before the line.
    #[inline(always)]
    #[tactic(auto, using(crate::proofs::Texts::worded_alone), unfolding(crate::specs::Lines::worded))]
    fn add_alone(&mut self, word: &str)
        requires { length self.old + length word.now ≤ 160 }
        ensures { self.new ≡ worded word.now [] ++ self.old }
    {
        self.add_word(word);
    }

    // Puts a word and a number before the line.
    #[inline(always)]
    #[tactic(auto, unfolding(crate::specs::Lines::worded))]
    fn add_one(&mut self, word: &str, number: u64)
        requires { length self.old + length word.now + 21 ≤ 160 }
        ensures bytes { self.new ≡ worded word.now (number ∷ []) ++ self.old }
        ensures short { length self.new ≤ length self.old + length word.now + 21 }
    {
        self.add_number(number);
        self.add_word(word);
    }

    // Puts a word and three numbers before the line.
    #[inline(always)]
    #[tactic(auto, unfolding(crate::specs::Lines::worded))]
    fn add_three(&mut self, word: &str, first: u64, second: u64, third: u64)
        requires { length self.old + length word.now + 63 ≤ 160 }
        ensures bytes { self.new ≡ worded word.now (first ∷ second ∷ third ∷ []) ++ self.old }
        ensures short { length self.new ≤ length self.old + length word.now + 63 }
    {
        self.add_number(third);
        self.add_number(second);
        self.add_number(first);
        self.add_word(word);
    }

    // Puts a word before the line.
    #[inline(always)]
    fn add_word(&mut self, word: &str)
        requires { length self.old + length word.now ≤ 160 }
        ensures { self.new ≡ word.now ++ self.old }
    {
        let end = self.from;
        self.from = end - word.len();
        self.bytes[self.from..end].copy_from_slice(word.as_bytes());
    }

    // Puts a space and a number before the line.
    #[inline(always)]
    fn add_number(&mut self, number: u64)
        requires { length self.old + 21 ≤ 160 }
        ensures bytes { self.new ≡ spaced number ++ self.old }
        ensures short { length self.new ≤ length self.old + 21 }
    {
        self.from = write_digits(number, &mut self.bytes, self.from);
        self.add_word(" ");
    }
}

/// Returns the line that answers an accepted step, without an LF.
pub fn print_reply(reply: &Reply) -> ArrayString<160>
    ensures { result.bytes ≡ reply_text reply.now }
{
    let mut line = AnswerLine::new();
    line.add_reply(*reply);
    line.text()
}

/// Returns the line that answers a refused step, without an LF: the fault's number, its name and its fields.
pub fn print_fault(fault: &Fault) -> ArrayString<160>
    ensures { result.bytes ≡ fault_text fault.now }
{
    let mut line = AnswerLine::new();
    line.add_fault(*fault);
    line.text()
}
