//! Messages and commands of a DCC-EX, and datasets of a Z21. The cases `words-of-a-dcc-ex` and `datasets-of-a-z21` have
//! the programs of `bridges/` read and write these rows.

use srcp_stations::{
    CvValue, Drive, Report, Said, Speed, Tell, Track, first_dataset, is_said, read_said, said_line,
    tell_line, xbus,
};
use std::process::Abort;

fn report(cab: u32, slot: Option<u32>, speed: Speed, is_forward: bool, functions: u32) -> Said {
    let drive = Drive { speed, is_forward };
    Said::Locomotive(Report {
        cab,
        slot,
        drive,
        functions,
    })
}

fn cab(address: u32, speed: Speed, is_forward: bool) -> Tell {
    Tell::Cab(address, Drive { speed, is_forward })
}

// Reads each message as what it says.
fn read_each(rt: &impl Abort, rows: &[(&[u8], Said)]) {
    for (message, said) in rows {
        assert_eq!(rt; read_said(message), Some(*said));
    }
}

// Writes each command.
fn write_each(rt: &impl Abort, rows: &[(&[u8], Tell)]) {
    for (command, tell) in rows {
        assert_eq!(rt; tell_line(*tell).as_slice(), *command);
    }
}

// Reads nothing in each message.
fn read_none(rt: &impl Abort, rows: &[&[u8]]) {
    for message in rows {
        assert_eq!(rt; read_said(message), None);
    }
}

// Writes each message that has no text and no noise.
fn say_each(rt: &impl Abort, rows: &[(&[u8], Said)]) {
    for (message, said) in rows {
        if is_said(*said) {
            assert_eq!(rt; said_line(said).as_slice(), *message);
        }
    }
}

#[test]
fn messages(rt: HostRuntime) {
    let rows: [(&[u8], Said); 25] = [
        (b"<Q 1>", Said::Sensor(1, true)),
        (b"<q 99999>", Said::Sensor(99999, false)),
        (b"<# 50>", Said::Slots(50)),
        (b"<p1>", Said::Power(Track::All, true)),
        (b"<p0>", Said::Power(Track::All, false)),
        (b"<p1 MAIN>", Said::Power(Track::Main, true)),
        (b"<p1 JOIN>", Said::Power(Track::Join, true)),
        (b"<p0 PROG>", Said::Power(Track::Prog, false)),
        (b"<p1 A>", Said::Power(Track::Letter(0), true)),
        (b"<p0 H>", Said::Power(Track::Letter(7), false)),
        (b"<l 3 0 128 0>", report(3, Some(0), Speed::Stand, true, 0)),
        (b"<l 3 -1 0 0>", report(3, None, Speed::Stand, false, 0)),
        (b"<l 3 2 1 0>", report(3, Some(2), Speed::Halt, false, 0)),
        (b"<l 3 2 129 0>", report(3, Some(2), Speed::Halt, true, 0)),
        (
            b"<l 3 2 130 1>",
            report(3, Some(2), Speed::Step(1), true, 1),
        ),
        (
            b"<l 10239 99999 127 268435456>",
            report(10239, Some(99999), Speed::Step(126), false, 268435456),
        ),
        (
            b"<l 1 0 255 2147483647>",
            report(1, Some(0), Speed::Step(126), true, 2147483647),
        ),
        (
            b"<l 1 0 255 -2147483648>",
            report(1, Some(0), Speed::Step(126), true, 2147483648),
        ),
        (
            b"<l 1 0 255 -1>",
            report(1, Some(0), Speed::Step(126), true, 4294967295),
        ),
        (b"<X>", Said::Refused),
        (b"<r 1 3>", Said::Cv(false, 1, CvValue::Is(3))),
        (b"<v 1024 255>", Said::Cv(true, 1024, CvValue::Is(255))),
        (b"<r 29 -1>", Said::Cv(false, 29, CvValue::Nobody)),
        (b"<r 29 -2>", Said::Cv(false, 29, CvValue::CannotMeasure)),
        (b"<r 29 -3>", Said::Cv(false, 29, CvValue::NoTrack)),
    ];
    read_each(&rt, &rows);
    say_each(&rt, &rows);
}

#[test]
fn messages_with_text_or_noise(rt: HostRuntime) {
    read_each(
        &rt,
        &[
            (
                b"<iDCC-EX V-5.0.7 / MEGA / STANDARD_MOTOR_SHIELD G-sim>",
                Said::Banner,
            ),
            (
                b"<* TRACK A POWER OVERLOAD 3200mA (max 1500mA) detected after 100ms. Pause 100ms *>",
                Said::Overload,
            ),
            (
                b"<* TRACK A FAULT PIN detected after 10ms. Pause 100ms *>",
                Said::Overload,
            ),
            (b"<* TRACK A ALERT FAULT *>", Said::Overload),
            (b"\r\n<p1>", Said::Power(Track::All, true)),
            (
                b"<l 3 0 1<l 4 0 128 0>",
                report(4, Some(0), Speed::Stand, true, 0),
            ),
        ],
    );
}

#[test]
fn messages_that_say_nothing(rt: HostRuntime) {
    read_none(
        &rt,
        &[
            b"",
            b"<>",
            b"p1>",
            b"<p1",
            b"<p2>",
            b"<p1  MAIN>",
            b"<p1 I>",
            b"<p1 main>",
            b"<H 5 1>",
            b"<Q -1>",
            b"<Q 100000>",
            b"<# 10000>",
            b"<l 0 0 128 0>",
            b"<l 3 0 256 0>",
            b"<l 3 0 128>",
            b"<l 3 0 128 0 >",
            b"<* the MAIN track *>",
            b"<x>",
            b"<r 1 -4>",
        ],
    );
}

// Lines that no station of ours has said: a line has damaged them, or a number is past its limit.
#[test]
fn messages_that_the_program_alone_reads(rt: HostRuntime) {
    read_none(
        &rt,
        &[
            b"<Q 01>",
            b"<l 03 0 128 0>",
            b"<l 10240 0 128 0>",
            b"<l 3 -2 128 0>",
            b"<l 3 0 128 2147483648>",
            b"<r1 3>",
            b"<r 1 256>",
            b"<r 1025 3>",
        ],
    );
}

#[test]
fn commands(rt: HostRuntime) {
    write_each(
        &rt,
        &[
            (b"<!>\n", Tell::StopAll),
            (b"<1>\n", Tell::Power(true)),
            (b"<0>\n", Tell::Power(false)),
            (b"<t 3 60 1>\n", cab(3, Speed::Step(60), true)),
            (b"<t 10239 126 0>\n", cab(10239, Speed::Step(126), false)),
            (b"<t 3 0 1>\n", cab(3, Speed::Stand, true)),
            (b"<t 3 -1 0>\n", cab(3, Speed::Halt, false)),
            (b"<F 3 0 1>\n", Tell::Function(3, 0, true)),
            (b"<F 10239 28 0>\n", Tell::Function(10239, 28, false)),
            (b"<a 5 1>\n", Tell::Turnout(5, true)),
            (b"<a 2044 0>\n", Tell::Turnout(2044, false)),
            (b"<- 3>\n", Tell::Forget(3)),
            (b"<t 3>\n", Tell::Ask(3)),
            (b"<s>\n", Tell::Hello),
            (b"<#>\n", Tell::Alive),
            (b"<Q>\n", Tell::Sensors),
            (b"<R 1>\n", Tell::ReadCv(1)),
            (b"<W 1024 255>\n", Tell::WriteCv(1024, 255)),
        ],
    );
}

#[test]
fn datasets(rt: HostRuntime) {
    let rows: [(&[u8], &[u8]); 4] = [
        (b"\x07\x00\x40\x00\x21\x24\x05", b"\x21\x24"),
        (b"\x07\x00\x40\x00\x21\x81\xa0", b"\x21\x81"),
        (
            b"\x0a\x00\x40\x00\xe4\x13\x00\x03\x80\x74",
            b"\xe4\x13\x00\x03\x80",
        ),
        (b"\x09\x00\x40\x00\xe3\xf0\xe7\xff\x0b", b"\xe3\xf0\xe7\xff"),
    ];
    for (dataset, command) in &rows {
        if command.len() <= 8 {
            assert_eq!(rt; xbus(command).as_slice(), *dataset);
        }
        assert!(rt; first_dataset(dataset).is_some());
    }
}

#[test]
fn datagrams_without_a_dataset(rt: HostRuntime) {
    let rows: [&[u8]; 5] = [
        b"\x07\x00\x40",
        b"\x03\x00\x40\x00",
        b"\x04\x00\x40\x00",
        b"\x08\x00\x40\x00\x21\x24\x05",
        b"\x07\x00\x40\x00\x21\x24\x04",
    ];
    for datagram in &rows {
        assert!(rt; first_dataset(datagram).is_none());
    }
}
