use super::*;
use std::test::Fail;

// A window with its number, by which it is queued.
#[derive(Clone, Copy, Debug, PartialEq, Eq)]
struct Window {
    number: u64,
    blinds: u8,
}

impl Keyed for Window {
    ghost number = { λ w. w.number };

    fn key(&self) -> u64 {
        self.number
    }
}

const WEST: Window = Window {
    number: 7,
    blinds: 2,
};

const EAST: Window = Window {
    number: 3,
    blinds: 1,
};

const SOUTH: Window = Window {
    number: 5,
    blinds: 4,
};

const FREE: Slot<Window> = Slot {
    key: 0,
    element: SOUTH,
};

#[test]
fn stands_by_rising_key(rt: HostRuntime) -> Result<(), Fail> {
    let mut slots = [FREE; 3];
    let mut queue = Queue::new(&mut slots);
    assert_eq!(rt; queue.insert(WEST), Ok(()));
    assert_eq!(rt; queue.insert(EAST), Ok(()));
    assert_eq!(rt; queue.insert(SOUTH), Ok(()));
    assert_eq!(rt; queue.len(), 3);
    assert_eq!(rt; queue.slot(0).ok_or("no slot 0")?.element, EAST);
    assert_eq!(rt; queue.slot(1).ok_or("no slot 1")?.element, SOUTH);
    assert_eq!(rt; queue.slot(2).ok_or("no slot 2")?.key, 7);
    assert!(rt; queue.slot(3).is_none());
    Ok(())
}

#[test]
fn refuses_and_removes(rt: HostRuntime) {
    let mut slots = [FREE; 2];
    let mut queue = Queue::new(&mut slots);
    assert_eq!(rt; queue.insert(WEST), Ok(()));
    assert_eq!(rt; queue.insert(EAST), Ok(()));
    assert_eq!(rt; queue.insert(EAST), Err(Unstored::Duplicate));
    assert_eq!(rt; queue.insert(SOUTH), Err(Unstored::Full));
    assert_eq!(rt; queue.remove(3), Some(EAST));
    assert_eq!(rt; queue.remove(3), None);
    assert!(rt; !queue.holds(3));
    assert_eq!(rt; queue.get(7), Some(WEST));
    queue.clear();
    assert_eq!(rt; queue.len(), 0);
}
