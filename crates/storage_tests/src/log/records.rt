use super::*;
use bf_disk::MemoryDisk;

// A log of the numbers from 1 on.
fn numbered(rt: &impl Abort, alloc: Global, count: u32) -> Result<Log<MemoryDisk>, Fail> {
    let mut disk = MemoryDisk::new(alloc);
    make(&mut disk)?;
    let mut log = opened(rt, alloc, disk);
    for number in 1..=count {
        let answer = append(&mut log, &number.to_le_bytes(), 4, 1 << 36);
        assert_eq!(rt; answer, Ok(number as u64));
    }
    Ok(log)
}

// Where the gate of the next payload stood, if it is this number.
fn next_gate(
    alloc: Global,
    opening: &mut Opening<MemoryDisk>,
    number: u32,
) -> Result<Option<u64>, OpenError> {
    Ok(match next(alloc, opening)? {
        Next::Payload(gate, payload) if payload.as_slice() == number.to_le_bytes().as_slice() => {
            Some(gate)
        }
        _ => None,
    })
}

// Each record has four bytes, so that its gate stands nine behind the one before.
#[test]
fn many_records_come_back_in_order(rt: HostRuntime) -> Result<(), Fail> {
    let log = numbered(&rt, rt.alloc(), 1000)?;
    let mut opening = open(rt.alloc(), log.into_disk())?;
    for number in 1..=1000u32 {
        let gate = next_gate(rt.alloc(), &mut opening, number)?;
        assert_eq!(rt; gate, Some(9 * number as u64 - 1), "record {number}");
    }
    assert!(rt; matches!(next(rt.alloc(), &mut opening)?, Next::End));
    Ok(())
}
