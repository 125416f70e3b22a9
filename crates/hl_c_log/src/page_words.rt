//! The words of a page that was taken, without the lock.
ghost use Rattle.std.specs.Prelude.{◌≡◌, None};
ghost use Rattle.hl_c_log.specs.Logs.{free_number};
ghost use Rattle.hl_c_log.specs.Pages.{Copies, Sweeps};

use crate::page_handle::PageHandle;
use hl_answers::{Brief, Outcome};
use hl_model::Reply;

/// Copies the words of a page into so many places, as many as a page has: its number.
#[unsafe(no_mangle)]
pub extern "C" fn hl_log_copy_page(page: &mut PageHandle, words: &mut [u64]) -> Brief
    ensures { Copies page.old.slot.value words.old page.new.slot.value words.new result }
{
    match page.take() {
        Some(mut own) => {
            let number = own.page();
            let copied = own.copy(words);
            page.put(own);
            Outcome::of(copied.map(|()| Reply::Page(number))).brief()
        }
        None => Outcome::no_core().brief(),
    }
}

/// Zeroes the words of a page that was taken to be cleaned: its number.
#[unsafe(no_mangle)]
pub extern "C" fn hl_log_sweep(page: &mut PageHandle) -> Brief
    ensures { Sweeps page.old.slot.value page.new.slot.value result }
{
    match page.take() {
        Some(mut own) => {
            let number = own.page();
            let swept = own.sweep();
            page.put(own);
            Outcome::of(swept.map(|()| Reply::Page(number))).brief()
        }
        None => Outcome::no_core().brief(),
    }
}

/// Gives a page back whose work didn't end: it stays taken. Returns 0, or 255 if there is none.
#[unsafe(no_mangle)]
pub extern "C" fn hl_page_abandon(page: &mut PageHandle) -> u64
    ensures number { result ≡ free_number page.old.slot.value }
    ensures none { page.new.slot.value ≡ None }
{
    match page.take() {
        Some(own) => {
            drop(own);
            0
        }
        None => 255,
    }
}
