use crate::words::{Wordless, last_word};
use four_lattice::status::Status;
use std::io::ErrorKind;
use std::test::*;

#[test]
fn a_process_without_words(rt: HostRuntime) -> Result<(), Fail> {
    let rows = [
        (ErrorKind::OutOfMemory, Status::NoMemory),
        (ErrorKind::InvalidData, Status::Words),
        (ErrorKind::NotFound, Status::Words),
    ];
    for (kind, status) in rows {
        assert_eq!(rt; Wordless::of_kind(kind).status(), status);
    }
    Ok(())
}

#[test]
fn the_file_of_the_last_word(rt: HostRuntime) -> Result<(), Fail> {
    let alloc = rt.alloc();
    let mut words = Vec::new(alloc);
    assert_eq!(rt; last_word(alloc, &words)?.as_str(), "");
    words.push(String::from_str(alloc, "audit")?)?;
    words.push(String::from_str(alloc, "my.journal")?)?;
    assert_eq!(rt; last_word(alloc, &words)?.as_str(), "my.journal");
    Ok(())
}
