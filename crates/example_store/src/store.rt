use hl::{Fault, Realm, Region, Session, attempt};
use std::alloc::{AllocError, Global};
use std::collections::HashMap;
use std::sync::{Mutex, MutexGuard, Wait};

/// How many parts the index has, each under a lock of its own.
const BUCKETS: usize = 16;

/// How often a change is tried again.
const TRIES: u32 = 1_000_000;

/// Where the value of each key lies in the log.
type Bucket = HashMap<u64, u64>;

/// What is to become of a key's value.
#[derive(Clone, Copy)]
pub(crate) enum Change {
    Put(u64),
    Add(u64),
}

impl Change {
    // The new value, by the old one.
    fn of(self, old: Option<u64>) -> u64 {
        match self {
            Change::Put(value) => value,
            Change::Add(more) => old.unwrap_or(0).wrapping_add(more),
        }
    }
}

/// An index of keys. The records are in the log: two words each, the key and the value.
#[derive(Drop)]
pub(crate) struct Store {
    buckets: Vec<Mutex<Bucket>>,
}

impl Store {
    /// A store without keys.
    pub(crate) fn open(alloc: Global) -> Result<Store, AllocError> {
        let mut buckets = Vec::new(alloc);
        for _ in 0..BUCKETS {
            buckets.push(Mutex::new(HashMap::new(alloc)))?;
        }
        Ok(Store { buckets })
    }

    /// The value of a key, if it has one. `Evicted` where it is on the device alone.
    pub(crate) fn read<R: Wait, L: Realm>(
        &self,
        rt: &R,
        session: &mut Session<R, L>,
        key: u64,
    ) -> Result<Option<u64>, Fault> {
        attempt(session, TRIES, |session| {
            let bucket = self.lock(rt, key)?;
            match bucket.get(&key) {
                Some(address) => session.load(*address).map(Some),
                None => Ok(None),
            }
        })
    }

    /// Changes the value of a key: in its place where the session may still write there, else in a new record. Between two
    /// tries the bucket is let go: a thread that waits for it can't refresh, and while it doesn't, no frame comes free.
    pub(crate) fn change<R: Wait, L: Realm>(
        &self,
        rt: &R,
        session: &mut Session<R, L>,
        key: u64,
        change: Change,
    ) -> Result<(), Fault> {
        attempt(session, TRIES, |session| {
            self.change_once(rt, session, key, change)
        })
    }

    // The same, tried once, with the key's bucket held.
    fn change_once<R: Wait, L: Realm>(
        &self,
        rt: &R,
        session: &mut Session<R, L>,
        key: u64,
        change: Change,
    ) -> Result<(), Fault> {
        let mut bucket = self.lock(rt, key)?;
        let value = match bucket.get(&key) {
            Some(address) => {
                let value = change.of(Some(session.load(*address)?));
                // Nobody else changes a record of this bucket, so a fuzzy one needn't be waited for.
                match session.region(*address)? {
                    Region::Mutable => return session.store(*address, value),
                    _ => value,
                }
            }
            None => change.of(None),
        };
        let address = session.append(&[key, value])? + 1;
        match bucket.insert(key, address) {
            Ok(_) => Ok(()),
            Err(_) => Err(Fault::OutOfMemory),
        }
    }

    // The part of the index that has a key.
    fn lock<'a, R: Wait>(&'a self, rt: &R, key: u64) -> Result<MutexGuard<'a, Bucket>, Fault> {
        let bucket = self.buckets.get(key as usize % BUCKETS).ok_or(Fault::Size)?;
        Ok(bucket.lock(rt))
    }
}
