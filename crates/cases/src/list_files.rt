// List files, read and written.
use crate::says::plans;
use files::list_file::{read_list, write_list};
use std::test::Fail;
use tasks::list::OpenList;

const ONE_TASK: &[u8] = b"\xa7\x5e\x01\x06\x00\x00\x01\x00\x05A\xa7\x5e\x03\x02\x00\x01";

// One ASAP task named A with cost 1 and period 5, there and back; a buffer one byte too short is refused and left alone.
#[test]
fn one_task(rt: HostRuntime) -> Result<(), Fail> {
    let mut list = OpenList::new().close();
    read_list(ONE_TASK, &mut list)?;
    let mut buffer = [9u8; 17];
    assert_eq!(rt; write_list(&list, &mut buffer)?, 16);
    assert!(rt; &buffer[0..16] == ONE_TASK);
    assert_eq!(rt; buffer[16], 9);
    let mut short = [9u8; 15];
    assert!(rt; write_list(&list, &mut short).is_err());
    assert_eq!(rt; short[0], 9);
    Ok(())
}

// Names of any bytes, with notes of no bytes between the records.
#[test]
fn any_name(rt: HostRuntime) -> Result<(), Fail> {
    let mut list = OpenList::new().close();
    read_list(
        b"\xa7\x5e\x02\x00\xa7\x5e\x01\x07\x01\x00\x02\x00\x09\x00\xff\xa7\x5e\x02\x00\xa7\x5e\x03\x02\x00\x01",
        &mut list,
    )?;
    let listed = list.task(0).ok_or_else(|| Fail::new("not listed"))?;
    assert!(rt; listed.name.bytes() == b"\x00\xff".as_slice());
    Ok(())
}

// Writes the part into the file, where it fits.
fn put(file: &mut [u8], at: usize, part: &[u8]) {
    if part.len() <= file.len() && at <= file.len() - part.len() {
        file[at..at + part.len()].copy_from_slice(part);
    }
}

// Writes the heads of 31 notes of 255 bytes, one of 153, and the end record: 8,192 bytes in all.
fn fill(file: &mut [u8]) {
    for note in file.chunks_exact_mut(259) {
        put(note, 0, b"\xa7\x5e\x02\xff");
    }
    put(file, 8029, b"\xa7\x5e\x02\x99");
    put(file, 8186, b"\xa7\x5e\x03\x02\x00\x00");
}

// A file of exactly 8,192 bytes is not too long.
#[test]
fn longest_file(rt: HostRuntime) -> Result<(), Fail> {
    let mut file = [0u8; 8192];
    fill(&mut file);
    plans(&rt, &file, b"task rank bound hold\ntests 0\n")
}

// Writes 32 task records of ten bytes each, and the end record.
fn fill_tasks(file: &mut [u8]) {
    for record in file.chunks_exact_mut(10) {
        put(record, 0, b"\xa7\x5e\x01\x06\x00\x00\x01\x00\x50a");
    }
    put(file, 320, b"\xa7\x5e\x03\x02\x00\x20");
}

// As many tasks as a list takes.
#[test]
fn full_file(rt: HostRuntime) -> Result<(), Fail> {
    let mut file = [0u8; 326];
    fill_tasks(&mut file);
    let mut list = OpenList::new().close();
    read_list(&file, &mut list)?;
    assert_eq!(rt; list.len(), 32);
    Ok(())
}

// Notes of 255 bytes before and behind a task whose name has 16 bytes of any value.
#[test]
fn noted_file(rt: HostRuntime) -> Result<(), Fail> {
    let mut file = [3u8; 549];
    put(&mut file, 0, b"\xa7\x5e\x02\xff");
    put(
        &mut file,
        259,
        b"\xa7\x5e\x01\x15\x01\x00\x02\x00\x09\x00\x01\x02\x03\x04\x05\x06\x07\x80\xa7\x5e\xfb\xfc\xfd\xfe\xff",
    );
    put(&mut file, 284, b"\xa7\x5e\x02\xff");
    put(&mut file, 543, b"\xa7\x5e\x03\x02\x00\x01");
    let mut list = OpenList::new().close();
    read_list(&file, &mut list)?;
    assert_eq!(rt; list.len(), 1);
    let listed = list.task(0).ok_or_else(|| Fail::new("not listed"))?;
    assert!(rt;
        listed.name.bytes()
            == b"\x00\x01\x02\x03\x04\x05\x06\x07\x80\xa7\x5e\xfb\xfc\xfd\xfe\xff".as_slice()
    );
    Ok(())
}
