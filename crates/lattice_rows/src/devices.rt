//! The files of the process as sources and sinks.
use std::test::Fail;
use std::{env, fs, process};
use wire_io::fault::ReadFault;
use wire_io::host::{HostSink, HostSource};
use wire_io::sink::write_all;
use wire_io::source::read_all;

#[test]
fn a_file_gives_back_what_was_written(rt: HostRuntime) -> Result<(), Fail> {
    let alloc = rt.alloc();
    let folder = env::temp_dir(&rt)?;
    let path = format!(in alloc;
        "{}/lattice_rows_{}",
        folder.display(),
        process::id(rt.process())
    )?;
    let mut sink = HostSink::file(&rt, path.clone()?);
    assert!(rt; write_all(&mut sink, b"lattice report 1\n").is_ok());
    let mut source = HostSource::file(&rt, path.clone()?);
    let bytes = read_all(alloc, &mut source, 100).ok().ok_or("no bytes")?;
    assert_eq!(rt; bytes.as_slice(), b"lattice report 1\n".as_slice());
    let mut source = HostSource::file(&rt, path.clone()?);
    let refused = read_all(alloc, &mut source, 16);
    assert_eq!(rt; refused.err(), Some(ReadFault::TooLong));
    fs::remove_file(&rt, path.as_str())?;
    let mut source = HostSource::file(&rt, path);
    let refused = read_all(alloc, &mut source, 100);
    assert_eq!(rt; refused.err(), Some(ReadFault::Fault));
    Ok(())
}

#[test]
fn a_file_in_no_folder_cannot_be_written(rt: HostRuntime) -> Result<(), Fail> {
    let path = String::from_str(rt.alloc(), "/no folder/file")?;
    let mut sink = HostSink::file(&rt, path);
    assert!(rt; write_all(&mut sink, b"text").is_err());
    Ok(())
}

#[test]
fn the_standard_error_takes_text_alone(rt: HostRuntime) -> Result<(), Fail> {
    let mut sink = HostSink::errors(&rt);
    assert!(rt; write_all(&mut sink, b"a line for the standard error\n").is_ok());
    assert!(rt; write_all(&mut sink, b"\xFF").is_err());
    Ok(())
}
