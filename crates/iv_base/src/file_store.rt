ghost use Rattle.std.specs.Prelude.{◌≡◌, if◌then◌else◌, ◌+◌, ◌<◌, ◌≤◌, ◌^◌, length, Option, IfOk, is_err};
ghost use Rattle.iv_base.specs.Counts.{capped};
ghost use Rattle.iv_base.specs.Stores.{HasLoadCause};

use crate::store::{LoadFault, Store};
use iv_words::Word;
use std::alloc::Global;
use std::io::{Error, ErrorKind, Read};
use std::rt::Files;
use std::{fs, str};

/// The files of the system, by their paths. It tells nothing of what they hold.
#[derive(Drop)]
pub struct FileStore<R: Files> {
    system: R,
    faults: u64,
    loads: u64,
}

impl<R: Files> FileStore<R> {
    /// The files that the runtime reaches.
    pub fn new(system: R) -> FileStore<R>
        ensures faults { ⟦<FileStore<R> as Store>⟧.faults result ≡ 0 }
        ensures loads { ⟦<FileStore<R> as Store>⟧.loads result ≡ 0 }
    {
        FileStore {
            system,
            faults: 0,
            loads: 0,
        }
    }
}

/// Want of memory stays that; all else is a fault.
fn fault_of(error: &Error) -> LoadFault {
    match error.kind() {
        ErrorKind::OutOfMemory => LoadFault::Memory,
        _ => LoadFault::Fault,
    }
}

/// Reads up to `limit` bytes, or up to a read of none.
fn read_front<F: Read>(file: &mut F, alloc: Global, limit: usize) -> Result<Word, LoadFault>
    ensures { IfOk result (λ w. length w ≤ limit) }
{
    let mut front = Word::new(alloc);
    let mut chunk = [0u8; 16_384];
    for _ in 0..u64::MAX {
        if front.len() == limit {
            return Ok(front);
        }
        let wanted = chunk.len().min(limit - front.len());
        match file.read(&mut chunk[..wanted]) {
            Ok(0) => return Ok(front),
            Ok(count) => front.extend_from_slice(&chunk[..count])?,
            Err(error) => {
                if error.kind() != ErrorKind::Interrupted {
                    return Err(fault_of(&error));
                }
            }
        }
    }
    Err(LoadFault::Fault)
}

/// The first `limit` bytes of the file at a path, which must be UTF-8, or all where there are fewer.
fn front_of<R: Files>(
    system: &R,
    alloc: Global,
    name: &Word,
    limit: usize,
) -> Result<Word, LoadFault>
    ensures { IfOk result (λ w. length w ≤ limit) }
{
    let Ok(path) = str::from_utf8(name.as_slice()) else {
        return Err(LoadFault::Fault);
    };
    match fs::open(system, path) {
        Ok(mut file) => read_front(&mut file, alloc, limit),
        Err(error) => Err(fault_of(&error)),
    }
}

impl<R: Files> Store for FileStore<R> {
    ghost use Rattle.std.specs.Prelude.{None};

    ghost faults = { λ s. s.faults };

    ghost holds = { λ _. None };

    ghost loads = { λ s. s.loads };

    fn load(&mut self, alloc: Global, name: &Word, most: u64) -> Result<Word, LoadFault>
        requires { most < 2 ^ 32 }
        ensures bounded { IfOk result (λ w. length w ≤ most + 1) }
        ensures loads { self.new.loads ≡ capped (self.old.loads + 1) }
        ensures faults { self.new.faults ≡ (if is_err result then capped (self.old.faults + 1) else self.old.faults) }
        ensures cause { HasLoadCause self.old.faults self.new.faults result }
    {
        self.loads = self.loads.saturating_add(1);
        let loaded = front_of(&self.system, alloc, name, most as usize + 1);
        if loaded.is_err() {
            self.faults = self.faults.saturating_add(1);
        }
        loaded
    }
}
