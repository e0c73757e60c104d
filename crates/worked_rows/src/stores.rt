//! Stores of files, each with what it gives under a name.

use iv_base::{File, FileStore, LoadFault, MemStore, Store, SureStore};
use iv_words::{Memory, Seq, Word};
use std::alloc::Global;
use std::fs;

fn word(alloc: Global, text: &str) -> Result<Word, Memory> {
    Word::from_slice(alloc, text.as_bytes())
}

fn files(alloc: Global) -> Result<Seq<File>, Memory> {
    let mut files = Seq::new(alloc);
    for (name, bytes) in [("a", "first"), ("b", "other"), ("a", "last")] {
        files.push(File {
            name: word(alloc, name)?,
            bytes: word(alloc, bytes)?,
        })?;
    }
    Ok(files)
}

#[test]
fn gives_the_first_file_of_a_name(rt: HostRuntime) -> Result<(), Memory> {
    let alloc = rt.alloc();
    let mut store = MemStore::new(alloc, files(alloc)?, Seq::new(alloc))?;
    for (name, most, text) in [("a", 9, "first"), ("b", 3, "othe"), ("b", 4, "other")] {
        let loaded = store.load(alloc, &word(alloc, name)?, most);
        assert_eq!(rt; loaded, Ok(word(alloc, text)?));
    }
    Ok(())
}

#[test]
fn gives_the_empty_text_for_an_absent_name(rt: HostRuntime) -> Result<(), Memory> {
    let alloc = rt.alloc();
    let mut store = SureStore::new(alloc, files(alloc)?)?;
    for (name, text) in [("a", "first"), ("c", "")] {
        let loaded = store.load(alloc, &word(alloc, name)?, 9);
        assert_eq!(rt; loaded, Ok(word(alloc, text)?));
    }
    Ok(())
}

#[test]
fn loads_what_a_file_holds(rt: HostRuntime) -> Result<(), LoadFault> {
    let alloc = rt.alloc();
    let path = "loads_what_a_file_holds.txt";
    let name = word(alloc, path)?;
    assert!(rt; fs::write(&rt, path, "hello").is_ok());

    let mut store = FileStore::new(rt);
    for (most, text) in [(0, "h"), (3, "hell"), (4, "hello"), (5, "hello")] {
        let loaded = store.load(alloc, &name, most)?;
        assert_eq!(rt; loaded.as_slice(), text.as_bytes());
    }
    assert!(rt; fs::remove_file(&rt, path).is_ok());

    let not_text = Word::from_slice(alloc, b"\xff")?;
    assert_eq!(rt; store.load(alloc, &name, 9), Err(LoadFault::Fault));
    assert_eq!(rt; store.load(alloc, &not_text, 9), Err(LoadFault::Fault));
    Ok(())
}
