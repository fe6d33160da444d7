ghost use Rattle.std.specs.Prelude.{◌≡◌, Some, false};
ghost use Rattle.std.proofs.lemmas.Bool.{false≢true};

use super::*;
use bf_disk::{DiskError, MemoryDisk};

// A disk in memory with room for so many bytes.
#[derive(Debug, Drop)]
struct SmallDisk {
    disk: MemoryDisk,
    room: u64,
}

impl Disk for SmallDisk {
    ghost seen = { λ small. Some small.disk };

    ghost tells_images = { false };

    ghost may_leave = { λ _ _. ⊥ };

    ghost moment = { λ _. 0 };

    ghost left_since = { λ _ _ _. ⊥ };

    ghost fault_count = { λ _. 0 };

    ghost as_it_reads = { λ disk file tells told. absurd (false≢true tells) };

    ghost counts_now = { λ _ _ _ _ left. left };

    ghost earlier = { λ _ _ _ _ _ left. left };

    ghost only_now = { λ _ _ left. left };

    fn faults(&self) -> u64 {
        0
    }

    fn len(&mut self) -> Result<u64, DiskError> {
        self.disk.len()
    }

    fn read(&mut self, at: u64, into: &mut [u8]) -> Result<(), DiskError> {
        self.disk.read(at, into)
    }

    fn write_at(&mut self, at: u64, bytes: &[u8]) -> Result<(), DiskError> {
        if at > self.room || bytes.len() as u64 > self.room - at {
            return Err(DiskError::Memory);
        }
        self.disk.write_at(at, bytes)
    }

    fn cut(&mut self, len: u64) -> Result<(), DiskError> {
        self.disk.cut(len)
    }

    fn sync(&mut self) -> Result<(), DiskError> {
        self.disk.sync()
    }
}

fn small_disk(alloc: Global, room: u64) -> SmallDisk {
    SmallDisk {
        disk: MemoryDisk::new(alloc),
        room,
    }
}

#[test]
fn no_log_is_made_without_room(rt: HostRuntime) {
    for (room, answer) in [(8, Err(CreateError::Memory)), (9, Ok(()))] {
        let mut disk = small_disk(rt.alloc(), room);
        assert_eq!(rt; make(&mut disk), answer, "room {room}");
    }
}

// Three bytes need one more than there is room for. Two would fit, but the log is spent.
#[test]
fn a_log_without_room_is_spent(rt: HostRuntime) -> Result<(), Fail> {
    let mut disk = small_disk(rt.alloc(), 16);
    make(&mut disk)?;
    let mut log = opened(&rt, rt.alloc(), disk);
    for (payload, limit) in [
        (b"abc".as_slice(), 99),
        (b"ab".as_slice(), 99),
        (b"ab".as_slice(), 0),
        (b"too large".as_slice(), 99),
    ] {
        let answer = append(&mut log, payload, 3, limit);
        assert_eq!(rt; answer, Err(AppendError::Memory), "{payload:?}");
        assert_eq!(rt; log.halted(), None);
    }
    let mut log = opened(&rt, rt.alloc(), log.into_disk());
    assert_eq!(rt; append(&mut log, b"ab", 3, 99), Ok(1));
    Ok(())
}
