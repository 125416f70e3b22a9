//! The records of a file of pages, and nothing else but the file.
ghost use Rattle.std.specs.Prelude.{◌≡◌, ◌+◌, ◌*◌, ◌<◌, ◌≤◌, ◌^◌, ◌++◌, IfOk, IfErr, MatchResult, List, length};
ghost use Rattle.example_layout.specs.Device.{images_from, live_in, ArePages, IsPage, IsRefusedPage, IsUnreadable};
ghost use Rattle.example_layout.specs.Pieces.{rows_of, Piece};
ghost use Rattle.example_layout.specs.declared.bad.Unreadable.TheVariants.{OutOfMemory};

use crate::bad::{BadPage, Trouble, Unreadable};
use crate::entry::Entry;
use crate::records::Records;
use byteorder::{BigEndian, ByteOrder};
use std::alloc::Global;

/// The live records in the bytes of a file: images of pages of so many words, from page 0 on, one behind the other. It takes any
/// bytes.
///
/// `Page` if a page is bad, the first that is; `OutOfMemory` if memory is refused.
pub fn read_pages(alloc: Global, page_size: u64, bytes: &[u8]) -> Result<Vec<Entry>, Unreadable>
    requires { page_size ≤ 2 ^ 20 }
    ensures pages { IfOk result (λ found. (pages : List (List Piece)) × ArePages page_size pages
        × (bytes.now ≡ images_from 0 pages) × (rows_of found.items ≡ live_in page_size 0 pages)) }
    ensures bad { IfErr result (IsUnreadable page_size bytes.now) }
    ensures inverts { (pages : List (List Piece)) → ArePages page_size pages → bytes.now ≡ images_from 0 pages
        → MatchResult result (λ found. rows_of found.items ≡ live_in page_size 0 pages) (λ e. e ≡ OutOfMemory) }
{
    let size = 8 + 8 * page_size as usize;
    let Ok(mut words) = vec![in alloc; 0; page_size as usize] else {
        return Err(Unreadable::OutOfMemory);
    };
    let mut found = Vec::new(alloc);
    let mut rest = bytes;
    let mut page: u64 = 0;
    while !rest.is_empty() {
        if rest.len() < size {
            return Err(Unreadable::Page(page, BadPage::Length));
        }
        if let Err(unreadable) = read_page(alloc, page, rest, &mut words, &mut found) {
            return Err(unreadable);
        }
        let (_, later) = rest.split_at(size);
        rest = later;
        page += 1;
    }
    Ok(found)
}

// Puts the live records of the page whose image these bytes begin with behind those that were found. `words` has room for the
// words of a page.
fn read_page(
    alloc: Global,
    page: u64,
    rest: &[u8],
    words: &mut [u64],
    found: &mut Vec<Entry>,
) -> Result<(), Unreadable>
    requires size { 8 + 8 * length words.old ≤ length rest.now }
    requires fits { page * length words.old + length words.old < 2 ^ 64 }
    ensures page { IfOk result (λ _. IsPage (length words.old) page rest.now found.old.items found.new.items) }
    ensures bad { IfErr result (IsRefusedPage (length words.old) page rest.now) }
{
    let number = BigEndian::read_u64(rest);
    if number != page {
        return Err(Unreadable::Page(page, BadPage::Number(number)));
    }
    let size = words.len();
    BigEndian::read_u64_into(&rest[8..8 + 8 * size], words);
    let mut records = Records::new(alloc, page * size as u64, words);
    match records.gather(found) {
        Ok(()) => Ok(()),
        Err(Trouble::OutOfMemory) => Err(Unreadable::OutOfMemory),
        Err(Trouble::Broken(bad)) => Err(Unreadable::Page(
            page,
            BadPage::Record(records.place(), bad),
        )),
    }
}
