// Lists that get a plan.
use crate::says::plans;
use std::test::Fail;

#[test]
fn empty_list(rt: HostRuntime) -> Result<(), Fail> {
    plans(
        &rt,
        b"\xa7\x5e\x03\x02\x00\x00",
        b"task rank bound hold\ntests 0\n",
    )
}

// (cost, period): (1,5) and (3,10) ASAP, (1,5) and (1,10) ALAP.
#[test]
fn four_tasks(rt: HostRuntime) -> Result<(), Fail> {
    plans(
        &rt,
        b"\xa7\x5e\x01\x06\x00\x00\x01\x00\x05a\xa7\x5e\x01\x06\x00\x00\x03\x00\x0ab\xa7\x5e\x01\x06\x01\x00\x01\x00\x05c\xa7\x5e\x01\x06\x01\x00\x01\x00\x0ad\xa7\x5e\x03\x02\x00\x04",
        b"task rank bound hold\n0 4 1 0\n1 3 4 0\n2 2 5 0\n3 1 8 2\ntests 6\n",
    )
}

// One ALAP task that takes its whole period, with a note before it.
#[test]
fn full_period(rt: HostRuntime) -> Result<(), Fail> {
    plans(
        &rt,
        b"\xa7\x5e\x02\x03hey\xa7\x5e\x01\x06\x01\x00\x05\x00\x05a\xa7\x5e\x03\x02\x00\x01",
        b"task rank bound hold\n0 1 5 0\ntests 1\n",
    )
}

// The longest period, 60,000, is accepted; the name has 16 bytes.
#[test]
fn longest_period(rt: HostRuntime) -> Result<(), Fail> {
    plans(
        &rt,
        b"\xa7\x5e\x01\x15\x01\x00\x01\xea\x60abcdefghijklmnop\xa7\x5e\x03\x02\x00\x01",
        b"task rank bound hold\n0 1 1 59999\ntests 1\n",
    )
}

// A tie goes to the least number.
#[test]
fn equal_tasks(rt: HostRuntime) -> Result<(), Fail> {
    plans(
        &rt,
        b"\xa7\x5e\x01\x06\x00\x00\x01\x00\x05a\xa7\x5e\x01\x06\x00\x00\x01\x00\x05b\xa7\x5e\x03\x02\x00\x02",
        b"task rank bound hold\n0 1 2 0\n1 2 1 0\ntests 3\n",
    )
}
