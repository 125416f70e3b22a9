//! A device in memory: a ring of places for the images of pages, which any thread reads back without a lock.
use std::alloc::{AllocError, Global};
use std::sync::OnceLock;
use std::sync::atomic::AtomicU64;
use std::sync::atomic::Ordering::SeqCst;

/// How many words a page has, on the device and in memory.
pub(crate) const PAGE_SIZE: u64 = 4096;

/// How many places there are: 256 MiB. A place has its memory once it is first written.
pub(crate) const PLACES: u64 = 1 << 13;

/// A place's first word is 1 + the number of its page, or 0 while one is written; the page's words follow.
#[derive(Drop)]
pub(crate) struct Device {
    places: Vec<OnceLock<Vec<AtomicU64>>>,
    /// Where the first page begins that is still wanted: the place of an earlier one may be written again.
    pub(crate) first: AtomicU64,
}

impl Device {
    /// An empty device.
    pub(crate) fn open(alloc: Global) -> Result<Device, AllocError> {
        Ok(Device {
            places: (0..PLACES).map(|_| OnceLock::new()).collect(alloc)?,
            first: AtomicU64::new(0),
        })
    }

    /// Keeps the image of a page, which has 8 bytes for its number and for each word, if there is room.
    pub(crate) fn write(&self, page: u64, image: &[u8]) -> Option<()> {
        if self.first.load(SeqCst) / PAGE_SIZE + PLACES <= page {
            return None;
        }
        let place = self.places.get((page % PLACES) as usize)?;
        // Two writers are never at one place.
        if place.get().is_none() {
            let words = zeros(*self.places.allocator(), PAGE_SIZE + 1).ok()?;
            place.try_set(words).ok()?;
        }
        let (number, words) = place.get()?.split_first()?;
        number.store(0, SeqCst);
        for (word, bytes) in words.iter().zip(image.chunks_exact(8).skip(1)) {
            word.store(u64::from_be_bytes(bytes.try_into().ok()?), SeqCst);
        }
        number.store(page.saturating_add(1), SeqCst);
        Some(())
    }

    /// The word at an address, if its page is here still after it was loaded.
    pub(crate) fn word(&self, address: u64) -> Option<u64> {
        let page = address / PAGE_SIZE;
        let place = self.places.get((page % PLACES) as usize)?;
        let (number, words) = place.get()?.split_first()?;
        let word = words.get((address % PAGE_SIZE) as usize)?.load(SeqCst);
        (number.load(SeqCst) == page + 1).then_some(word)
    }
}

/// So many words, each 0.
pub(crate) fn zeros(alloc: Global, count: u64) -> Result<Vec<AtomicU64>, AllocError> {
    (0..count).map(|_| AtomicU64::new(0)).collect(alloc)
}
