// A file for each refusal.
use crate::says::refuses;
use std::test::Fail;

#[test]
fn file_too_long(rt: HostRuntime) -> Result<(), Fail> {
    refuses(&rt, &[0u8; 8193], b"refused 1 bytes 8193\n")
}

#[test]
fn cut_off(rt: HostRuntime) -> Result<(), Fail> {
    refuses(&rt, b"", b"refused 2 bytes 0\n")?;
    refuses(&rt, b"\xa7\x5e\x03", b"refused 2 bytes 0\n")?;
    refuses(&rt, b"\xa7\x5e\x02\x00\xa7\x5e\x03", b"refused 2 bytes 4\n")?;
    refuses(
        &rt,
        b"\xa7\x5e\x01\x06\x00\x00\x01\x00\x05",
        b"refused 2 bytes 0\n",
    )
}

#[test]
fn wrong_records(rt: HostRuntime) -> Result<(), Fail> {
    refuses(&rt, b"\xa7\x5f\x03\x02\x00\x00", b"refused 3 bytes 0\n")?;
    refuses(&rt, b"\xa8\x5e\x03\x02\x00\x00", b"refused 3 bytes 0\n")?;
    refuses(
        &rt,
        b"\xa7\x5e\x04\x04\x00\x01\x00\x00",
        b"refused 4 bytes 0\n",
    )?;
    refuses(&rt, b"\xa7\x5e\x00\x00", b"refused 4 bytes 0\n")?;
    refuses(
        &rt,
        b"\xa7\x5e\x01\x05\x00\x00\x01\x00\x05",
        b"refused 5 bytes 0\n",
    )?;
    refuses(&rt, b"\xa7\x5e\x01\x16\x00", b"refused 5 bytes 0\n")?;
    refuses(
        &rt,
        b"\xa7\x5e\x02\x00\xa7\x5e\x03\x03\x00\x00\x00",
        b"refused 5 bytes 4\n",
    )
}

// Where two things are wrong, the earlier check speaks.
#[test]
fn wrong_tasks(rt: HostRuntime) -> Result<(), Fail> {
    refuses(
        &rt,
        b"\xa7\x5e\x01\x06\x02\x00\x00\x00\x05a",
        b"refused 6 task 0\n",
    )?;
    refuses(
        &rt,
        b"\xa7\x5e\x01\x06\x00\x00\x00\x00\x00a",
        b"refused 7 task 0\n",
    )?;
    refuses(
        &rt,
        b"\xa7\x5e\x02\x00\xa7\x5e\x01\x06\x01\x00\x06\x00\x05a",
        b"refused 8 task 4\n",
    )?;
    refuses(
        &rt,
        b"\xa7\x5e\x01\x06\x01\xff\xff\x00\x05a",
        b"refused 8 task 0\n",
    )?;
    refuses(
        &rt,
        b"\xa7\x5e\x01\x06\x00\x00\x01\xea\x61a",
        b"refused 9 task 0\n",
    )
}

// The 33rd task is refused at its record: 32 records of ten bytes come before it.
#[test]
fn too_many_tasks(rt: HostRuntime) -> Result<(), Fail> {
    let mut file = [0u8; 330];
    for record in file.chunks_exact_mut(10) {
        record.copy_from_slice(b"\xa7\x5e\x01\x06\x00\x00\x01\x00\x50a");
    }
    refuses(&rt, &file, b"refused 10 task 320\n")
}

#[test]
fn wrong_ends(rt: HostRuntime) -> Result<(), Fail> {
    refuses(&rt, b"\xa7\x5e\x03\x02\x00\x01", b"refused 11 bytes 0\n")?;
    refuses(
        &rt,
        b"\xa7\x5e\x02\x00\xa7\x5e\x03\x02\x00\x01",
        b"refused 11 bytes 4\n",
    )?;
    refuses(
        &rt,
        b"\xa7\x5e\x03\x02\x01\x00\x00",
        b"refused 11 bytes 0\n",
    )?;
    refuses(
        &rt,
        b"\xa7\x5e\x03\x02\x00\x00\x00",
        b"refused 12 bytes 6\n",
    )
}

// (2,4) and (3,6) fill the processor exactly, and cannot be placed; of (2,5), (4,7) and (1,1000) only the last can.
#[test]
fn left_over(rt: HostRuntime) -> Result<(), Fail> {
    refuses(
        &rt,
        b"\xa7\x5e\x01\x06\x00\x00\x02\x00\x04a\xa7\x5e\x01\x06\x00\x00\x03\x00\x06b\xa7\x5e\x03\x02\x00\x02",
        b"refused 16 plan 3\n",
    )?;
    refuses(
        &rt,
        b"\xa7\x5e\x01\x06\x00\x00\x02\x00\x05a\xa7\x5e\x01\x06\x00\x00\x04\x00\x07b\xa7\x5e\x01\x06\x00\x00\x01\x03\xe8c\xa7\x5e\x03\x02\x00\x03",
        b"refused 16 plan 3\n",
    )
}
