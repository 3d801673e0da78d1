//! The calls of a door in memory, and the events made by them.

use srcp_core::{Event, Piece};
use srcp_serve::{DoorFault, Got};
use std::alloc::{AllocError, Global};
use std::vec::Vec;

/// The most writes of a visit.
const MOST_WRITES: usize = 300;

/// A call of the door, with the answer.
#[derive(Drop)]
pub(crate) enum Asked {
    Expect {
        due: Option<u64>,
        slack: Option<usize>,
    },
    Now(Result<u64, DoorFault>),
    Accept(Result<Option<u32>, DoorFault>),
    /// The buffer after the call.
    Read {
        peer: u32,
        answer: Result<Got, DoorFault>,
        buffer: Vec<u8>,
    },
    /// The bytes to write.
    Write {
        peer: u32,
        bytes: Vec<u8>,
        answer: Result<usize, DoorFault>,
    },
    Close {
        peer: u32,
        answer: Result<(), DoorFault>,
    },
}

impl Asked {
    /// Returns whether the call is about this peer.
    fn is_about(&self, who: u32) -> bool {
        match self {
            Asked::Expect { .. } | Asked::Now(_) | Asked::Accept(_) => false,
            Asked::Read { peer, .. } | Asked::Write { peer, .. } | Asked::Close { peer, .. } => {
                *peer == who
            }
        }
    }

    /// Returns whether the peer is lost by the call, or took fewer bytes than were to be written.
    fn stops_writing(&self) -> bool {
        match self {
            Asked::Read { answer, .. } => matches!(answer, Ok(Got::Ended) | Err(_)),
            Asked::Write { bytes, answer, .. } => *answer != Ok(bytes.len()),
            _ => false,
        }
    }

    /// Returns the event made by the call, or `None` if the call makes no event; `conn` is the connection of the peer.
    fn event(&self, alloc: Global, conn: usize) -> Result<Option<Event>, AllocError> {
        Ok(match self {
            Asked::Read {
                answer: Ok(Got::Bytes(count)),
                buffer,
                ..
            } => {
                let bytes = buffer.get(..*count).unwrap_or(&[]);
                let piece = Piece::new(Vec::from_slice(alloc, bytes)?);
                Some(Event::Bytes { conn, piece })
            }
            Asked::Write { answer, .. } => Some(Event::Room {
                conn,
                bytes: answer.unwrap_or(0),
            }),
            _ => None,
        })
    }
}

/// A peer with a slot, and the number of the peer's connection.
#[derive(Clone, Copy)]
struct Client {
    peer: u32,
    conn: usize,
}

/// Returns the events made by these calls.
pub(crate) fn events_of(alloc: Global, calls: &[Asked]) -> Result<Vec<Event>, AllocError> {
    let mut events = Vec::new(alloc);
    let mut slots = Vec::new(alloc);
    let mut opened = 0usize;
    for turn in calls.chunk_by(|_, next| !matches!(next, Asked::Expect { .. })) {
        if let Some(Asked::Now(Ok(moment))) = turn.get(1) {
            events.push(Event::At(*moment))?;
        }
        if let Some(Asked::Accept(Ok(Some(peer)))) = turn.get(2) {
            events.push(Event::Open)?;
            if !turns_away(turn, *peer) {
                opened = opened.saturating_add(1);
                take_slot(&mut slots, *peer, opened)?;
            }
        }
        push_visits(alloc, turn, &mut slots, &mut events)?;
    }
    Ok(events)
}

/// Returns whether the first call about the accepted peer closes the peer.
fn turns_away(turn: &[Asked], peer: u32) -> bool {
    let first = turn.iter().find(|call| call.is_about(peer));
    first.is_some_and(|call| matches!(call, Asked::Close { .. }))
}

/// Gives the first free slot to a peer.
fn take_slot(slots: &mut Vec<Option<Client>>, peer: u32, conn: usize) -> Result<(), AllocError> {
    let client = Client { peer, conn };
    match slots.iter_mut().find(|slot| slot.is_none()) {
        Some(slot) => *slot = Some(client),
        None => slots.push(Some(client))?,
    }
    Ok(())
}

/// Appends the events of the visits of a turn.
fn push_visits(
    alloc: Global,
    turn: &[Asked],
    slots: &mut [Option<Client>],
    events: &mut Vec<Event>,
) -> Result<(), AllocError> {
    for slot in slots {
        push_visit(alloc, turn, slot, events)?;
    }
    Ok(())
}

/// Appends the events of the visit of the slot's peer, if there is such a peer. Frees the slot if the visit closes the
/// peer.
fn push_visit(
    alloc: Global,
    turn: &[Asked],
    slot: &mut Option<Client>,
    events: &mut Vec<Event>,
) -> Result<(), AllocError> {
    let Some(Client { peer, conn }) = *slot else {
        return Ok(());
    };
    let mut goes_on = true;
    let mut writes = 0usize;
    for call in turn.iter().filter(|call| call.is_about(peer)) {
        if let Some(event) = call.event(alloc, conn)? {
            events.push(event)?;
        }
        match call {
            Asked::Write { .. } => writes = writes.saturating_add(1),
            Asked::Close { .. } => *slot = None,
            _ => {}
        }
        goes_on = goes_on && !call.stops_writing();
    }
    if goes_on && writes < MOST_WRITES {
        events.push(Event::Room { conn, bytes: 0 })?;
    }
    if slot.is_none() {
        events.push(Event::Shut { conn })?;
    }
    Ok(())
}
