//! Runs over lists of events, and their records.

use crate::events::{
    begin, bytes, is_same_connection, listed, power_row, sensor_row, session_row, told,
};
use crate::fixture::one_bus;
use srcp_core::{ConnRecord, CoreFault, Event, Finish, Item, Record, Step, run};
use srcp_feed::Next;
use srcp_info::Mode;
use srcp_rules::{Command, Flat, Sensor};
use std::alloc::Global;
use std::process::Abort;
use std::test::Fail;
use std::vec::Vec;

const PANEL: &[u8] = b"SET CONNECTIONMODE SRCP INFO\nGO\n";

const PANEL_SENT: &[u8] = b"srcp_server 1.0; SRCP 0.8.4; SRCPOTHER 0.8.3
0.000 202 OK CONNECTIONMODE
0.000 200 OK GO 1
0.000 101 INFO 0 SESSION 1 INFO
0.000 100 INFO 1 POWER OFF
0.000 100 INFO 1 FB 1 0
0.000 101 INFO 0 SESSION 2 COMMAND
0.000 100 INFO 1 FB 1 1
0.000 100 INFO 1 FB 2 1
";

const COMMAND_SENT: &[u8] = b"srcp_server 1.0; SRCP 0.8.4; SRCPOTHER 0.8.3
0.000 200 OK GO 2
0.000 200 OK
0.000 200 OK
0.000 410 ERROR unknown command
0.007 200 OK
";

/// Returns the record of a run over the events.
fn carried_out(alloc: Global, events: &[Event]) -> Result<Record, Fail> {
    let layout = one_bus(alloc)?;
    Ok(run::<Flat>(alloc, &layout, events)?)
}

/// Appends the event of room for a connection.
fn give_room(events: &mut Vec<Event>, conn: usize, bytes: usize) -> Result<(), Fail> {
    events.push(Event::Room { conn, bytes })?;
    Ok(())
}

/// Appends events: a command session sets two sensors and sends an unknown command, and a moment comes, then an earlier
/// moment.
fn set_two_sensors(alloc: Global, events: &mut Vec<Event>) -> Result<(), Fail> {
    events.push(bytes(alloc, 2, b"SET 1 FB 2 1\nSET 1 FB 1 1\nNOISE\n")?)?;
    events.push(Event::At(7))?;
    events.push(Event::At(5))?;
    Ok(())
}

/// Appends events: the command session ends by the session's own command, and has room for the reply.
fn end_session(alloc: Global, events: &mut Vec<Event>) -> Result<(), Fail> {
    events.push(bytes(alloc, 2, b"TERM 0 SESSION\n")?)?;
    give_room(events, 2, 13)
}

/// Returns the events of a panel with room now and then, and of a command session. The command session sets two
/// sensors, sends an unknown command, and ends by the session's own command.
fn a_panel_and_a_throttle(alloc: Global) -> Result<Vec<Event>, Fail> {
    let mut events = Vec::new(alloc);
    begin(alloc, &mut events, 1, PANEL)?;
    // The rows of the session and of the power, and ten bytes of the first sensor's.
    give_room(&mut events, 1, 69)?;
    begin(alloc, &mut events, 2, b"GO\n")?;
    set_two_sensors(alloc, &mut events)?;
    give_room(&mut events, 1, 97)?;
    give_room(&mut events, 2, 1000)?;
    end_session(alloc, &mut events)?;
    Ok(events)
}

/// Returns the step of a command, given by session 2.
fn obeyed(moment: u64, command: Command) -> Step {
    Step::Obeyed {
        session: 2,
        moment,
        command,
    }
}

/// Returns the command to set a sensor of bus 1.
fn set_fb(port: u32) -> Command {
    Command::SetFb(Sensor {
        bus: 1,
        port,
        on: true,
    })
}

/// Returns the steps of the registry in these events.
fn expected_steps() -> [Step; 8] {
    [
        Step::Began {
            session: 1,
            moment: 0,
            mode: Mode::Info,
        },
        Step::Began {
            session: 2,
            moment: 0,
            mode: Mode::Command,
        },
        obeyed(0, set_fb(2)),
        obeyed(0, set_fb(1)),
        Step::Moment(7),
        Step::Moment(7),
        obeyed(7, Command::TermSession { session: None }),
        Step::Ended {
            session: 2,
            moment: 7,
        },
    ]
}

/// Returns the lines of the panel in these events.
fn expected_items() -> [Item; 6] {
    [
        listed(1, session_row(1, Mode::Info)),
        listed(1, power_row()),
        listed(1, sensor_row(1, false)),
        told(6, session_row(2, Mode::Command)),
        told(6, sensor_row(1, true)),
        listed(6, sensor_row(2, true)),
    ]
}

/// Asserts the record of the panel.
fn assert_panel(rt: &impl Abort, panel: &ConnRecord) {
    assert_eq!(rt; (panel.session, panel.info, panel.go_step), (1, true, 1));
    assert_eq!(rt; panel.items.as_slice(), expected_items().as_slice());
    assert_eq!(rt; panel.sent.as_slice(), PANEL_SENT);
}

/// Asserts the record of the command session.
fn assert_command(rt: &impl Abort, command: &ConnRecord) {
    assert_eq!(rt;
        (command.session, command.info, command.go_step),
        (2, false, 2)
    );
    assert!(rt; command.items.as_slice().is_empty());
    assert_eq!(rt; command.sent.as_slice(), COMMAND_SENT);
}

/// Asserts the records of both.
fn assert_sessions(rt: &impl Abort, record: &Record) -> Result<(), Fail> {
    let [panel, command] = record.connections.as_slice() else {
        return Err(Fail::from("not two connections"));
    };
    assert_panel(rt, panel);
    assert_command(rt, command);
    Ok(())
}

/// Asserts the steps of these events, and the absence of refusals.
fn assert_steps(rt: &impl Abort, record: &Record) {
    assert_eq!(rt; record.steps.as_slice(), expected_steps().as_slice());
    assert_eq!(rt; record.denied, 0);
    assert!(rt; record.refused.as_slice().is_empty());
}

#[test]
fn a_run_tells_steps_and_items(rt: HostRuntime) -> Result<(), Fail> {
    let events = a_panel_and_a_throttle(rt.alloc())?;
    let record = carried_out(rt.alloc(), &events)?;
    assert_steps(&rt, &record);
    assert_sessions(&rt, &record)
}

/// Returns the events of a panel with more room than the listing needs.
fn a_listing_with_room_left(alloc: Global) -> Result<Vec<Event>, Fail> {
    let mut events = Vec::new(alloc);
    begin(alloc, &mut events, 1, PANEL)?;
    for bytes in [1000, 0, 1000] {
        give_room(&mut events, 1, bytes)?;
    }
    Ok(events)
}

/// Asserts that the panel was given the four rows, and nothing else.
fn assert_rows_alone(rt: &impl Abort, record: &Record) -> Result<(), Fail> {
    let [panel] = record.connections.as_slice() else {
        return Err(Fail::from("not one connection"));
    };
    let items = [
        listed(1, session_row(1, Mode::Info)),
        listed(1, power_row()),
        listed(1, sensor_row(1, false)),
        listed(1, sensor_row(2, false)),
    ];
    assert_eq!(rt; panel.items.as_slice(), items.as_slice());
    Ok(())
}

#[test]
fn no_item_says_that_nothing_is_left(rt: HostRuntime) -> Result<(), Fail> {
    let events = a_listing_with_room_left(rt.alloc())?;
    let record = carried_out(rt.alloc(), &events)?;
    assert_rows_alone(&rt, &record)
}

/// Returns these events: a connection is opened, and number 0 has room. No connection has the number 0, and no script
/// can give this number.
fn room_for_none(alloc: Global) -> Result<Vec<Event>, Fail> {
    let mut events = Vec::new(alloc);
    events.push(Event::Open)?;
    give_room(&mut events, 0, 1)?;
    Ok(events)
}

/// Asserts that the second event is refused, and no allocation is.
fn assert_second_refused(rt: &impl Abort, record: &Record) -> Result<(), Fail> {
    let [refusal] = record.refused.as_slice() else {
        return Err(Fail::from("not one refused event"));
    };
    assert_eq!(rt; (refusal.event, refusal.fault), (2, CoreFault::NoSuch));
    assert_eq!(rt; record.denied, 0);
    Ok(())
}

#[test]
fn refusals_are_told_by_the_numbers_of_their_events(rt: HostRuntime) -> Result<(), Fail> {
    let events = room_for_none(rt.alloc())?;
    let record = carried_out(rt.alloc(), &events)?;
    assert_second_refused(&rt, &record)
}

/// Appends these events: connection 1 sets the first sensor, and the reply is sent. The third connection then has room,
/// and with `with_room` the second too.
fn set_sensor(alloc: Global, events: &mut Vec<Event>, with_room: bool) -> Result<(), Fail> {
    events.push(bytes(alloc, 1, b"SET 1 FB 1 1\n")?)?;
    give_room(events, 1, 13)?;
    give_room(events, 3, 10_000)?;
    if with_room {
        give_room(events, 2, 10_000)?;
    }
    Ok(())
}

/// Appends the events of a command session and of two settled panels, 2 and 3.
fn two_panels(alloc: Global, events: &mut Vec<Event>) -> Result<(), Fail> {
    begin(alloc, events, 1, b"GO\n")?;
    begin(alloc, events, 2, PANEL)?;
    begin(alloc, events, 3, PANEL)?;
    give_room(events, 2, 10_000)?;
    give_room(events, 3, 10_000)
}

/// Returns the record of a command session and two panels, the later of them settled. There are 300 changes. The third
/// connection has room after each of them, and with `with_room` the second too.
fn beside_a_panel(alloc: Global, with_room: bool) -> Result<Record, Fail> {
    let mut events = Vec::new(alloc);
    two_panels(alloc, &mut events)?;
    for _ in 0..300 {
        set_sensor(alloc, &mut events, with_room)?;
    }
    carried_out(alloc, &events)
}

/// Asserts that both runs have the same 303 steps and the same rows.
fn assert_same_registry(rt: &impl Abort, quick: &Record, slow: &Record) {
    assert_eq!(rt; quick.steps.as_slice(), slow.steps.as_slice());
    assert_eq!(rt; quick.steps.as_slice().len(), 303);
    assert_eq!(rt; quick.rows.as_slice(), slow.rows.as_slice());
}

/// Asserts that a panel with room was sent the lines of 300 changes more than the slow panel, and the slow panel
/// overran.
fn assert_told(rt: &impl Abort, panel: &ConnRecord, slow: &ConnRecord) {
    assert_eq!(rt; panel.finish, Finish::Live);
    assert_eq!(rt; slow.finish, Finish::Overrun);
    let changes = panel
        .items
        .as_slice()
        .iter()
        .filter(|item| matches!(&item.what, Next::Told(_)));
    assert_eq!(rt; changes.count(), 300);
    assert_eq!(rt;
        panel.sent.as_slice().len(),
        slow.sent.as_slice().len() + 7200
    );
}

/// Asserts that the second of three connections alone differs.
fn assert_same_others(rt: &impl Abort, quick: &Record, slow: &Record) -> Result<(), Fail> {
    let [command, panel, third] = quick.connections.as_slice() else {
        return Err(Fail::from("not three connections"));
    };
    let [slow_command, slow_panel, slow_third] = slow.connections.as_slice() else {
        return Err(Fail::from("not three connections"));
    };
    assert!(rt; is_same_connection(command, slow_command));
    assert!(rt; is_same_connection(third, slow_third));
    assert_told(rt, panel, slow_panel);
    Ok(())
}

#[test]
fn the_room_of_one_panel_changes_that_panel_alone(rt: HostRuntime) -> Result<(), Fail> {
    let quick = beside_a_panel(rt.alloc(), true)?;
    let slow = beside_a_panel(rt.alloc(), false)?;
    assert_same_registry(&rt, &quick, &slow);
    assert_same_others(&rt, &quick, &slow)
}
