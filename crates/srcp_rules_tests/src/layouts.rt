//! Layouts, and their registries at the beginning.

use crate::served::bus;
use srcp_info::{Cursor, Device, Group};
use srcp_rules::{Bus, Flat, Layout, LayoutFault, Rows};
use std::test::Fail;

#[test]
fn buses_stand_by_their_numbers(rt: HostRuntime) -> Result<(), Fail> {
    let mut layout = Layout::new(rt.alloc());
    let added = [
        layout.add(bus(7)),
        layout.add(bus(1)),
        layout.add(bus(7)),
        layout.add(bus(0)),
        layout.add(bus(251)),
    ];
    assert_eq!(rt;
        added,
        [
            Ok(()),
            Ok(()),
            Err(LayoutFault::Twice),
            Err(LayoutFault::OutOfRange),
            Err(LayoutFault::OutOfRange),
        ]
    );
    assert_eq!(rt; layout.buses(), [bus(1), bus(7)].as_slice());
    assert!(rt; layout.bus(1).is_some());
    assert!(rt; layout.bus(2).is_none());
    Ok(())
}

#[test]
fn ports_count_only_if_there_are_accessories(rt: HostRuntime) -> Result<(), Fail> {
    let mut layout = Layout::new(rt.alloc());
    let nine = Bus {
        ga_ports: 9,
        ..bus(1)
    };
    let none = Bus { ga_max: 0, ..nine };
    assert_eq!(rt; layout.add(nine), Err(LayoutFault::OutOfRange));
    assert_eq!(rt; layout.add(none), Ok(()));
    Ok(())
}

#[test]
fn a_registry_begins_with_power_and_feedback(rt: HostRuntime) -> Result<(), Fail> {
    let mut layout = Layout::new(rt.alloc());
    assert_eq!(rt; layout.add(bus(1)), Ok(()));
    let Ok(rows) = Flat::empty(rt.alloc(), &layout) else {
        return Err(Fail::from("no memory"));
    };
    let power = Device {
        bus: 1,
        group: Group::Power,
        address: 0,
    };
    let port = Device {
        bus: 1,
        group: Group::Fb,
        address: 2,
    };
    assert!(rt; rows.row(&power.first_key()).is_some());
    let first = rows.row_after(Cursor::Start).ok_or("no first row")?;
    assert_eq!(rt; first.shown.key, power.first_key());
    assert!(rt; rows.row_after(Cursor::After(port.first_key())).is_none());
    assert!(rt; rows.row_after(Cursor::Done).is_none());
    Ok(())
}
