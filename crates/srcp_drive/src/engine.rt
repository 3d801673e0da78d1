//! The locomotives of a bus: which place each has, and how fast it drives by its row.

ghost use Rattle.std.specs.Prelude.{◌≡◌, ◌<◌, ◌==◌, IfSome, position};
ghost use Rattle.srcp_drive.specs.declared.engine.Engine.{Engine as EngineRecord};
ghost use Rattle.srcp_drive.specs.Engines.{cab_at, drive_at, drive_of, free, is_cab, is_driven, is_halt, kept, made};
ghost use Rattle.srcp_drive.specs.Engines.{place_for, place_in, place_of, scaled, speed_of, top_of, turned};

use srcp_driver::{Drive, Put, Speed};
use srcp_info::{DriveMode, Letter};
use srcp_stations::{GREATEST_CAB, GREATEST_STEP};

/// The most locomotives that are driven. A locomotive that comes when all places are taken is not driven.
pub const MOST_CABS: usize = 128;

/// Describes a locomotive.
#[derive(Clone, Copy, Debug, PartialEq, Eq)]
pub(crate) struct Engine {
    /// The address, or 0 at a place that is free.
    pub address: u32,
    /// The steps of the decoder, or 0 if the locomotive is not driven.
    pub steps: u32,
    /// Whether the row said last that the locomotive is to drive forward.
    pub is_forward: bool,
    /// Whether the registry was asked for an emergency stop forward, or backward, until a row says that stop.
    pub halts: Option<bool>,
}

/// Holds what the row of a locomotive says of how it drives.
#[derive(Clone, Copy, Debug, PartialEq, Eq)]
pub(crate) struct State {
    /// The drive mode.
    pub mode: u32,
    /// The speed.
    pub v: u32,
    /// The greatest speed, or 0 if the row has none.
    pub vmax: u32,
}

/// Returns a place that is free.
pub(crate) fn free() -> Engine
    ensures { result ≡ free }
{
    Engine {
        address: 0,
        steps: 0,
        is_forward: true,
        halts: None,
    }
}

/// Returns whether this is the address of a locomotive.
pub(crate) fn is_cab(address: u32) -> bool
    ensures { result ≡ is_cab address }
{
    1 <= address && address <= GREATEST_CAB
}

/// Returns the address of the locomotive at a place, if there is one.
pub(crate) fn cab_at(engines: &[Engine], n: usize) -> Option<u32>
    ensures { result ≡ cab_at engines.now n }
{
    match engines.get(n) {
        Some(engine) if is_cab(engine.address) => Some(engine.address),
        _ => None,
    }
}

/// Returns a place if the table has it.
fn place_in(n: usize) -> Option<usize>
    ensures place { result ≡ place_in n }
    ensures few { IfSome result (λ n. n < MOST_CABS) }
{
    if n < MOST_CABS { Some(n) } else { None }
}

/// Returns the offset of the first locomotive of this address, if any.
fn first_of(engines: &[Engine], address: u32) -> Option<usize>
    ensures { result ≡ position (λ (engine : EngineRecord). engine.address == address) engines.now }
{
    engines.iter().position(|engine| engine.address == address)
}

/// Returns the place of the locomotive of this address, if it has one.
pub(crate) fn place_of(engines: &[Engine], address: u32) -> Option<usize>
    ensures place { result ≡ place_of engines.now address }
    ensures few { IfSome result (λ n. n < MOST_CABS) }
{
    match first_of(engines, address) {
        Some(n) => place_in(n),
        None => None,
    }
}

/// Returns the place of the locomotive of this address, or else one that is free, if any.
fn place_for(engines: &[Engine], address: u32) -> Option<usize>
    ensures { result ≡ place_for engines.now address }
{
    place_of(engines, address).or(place_of(engines, 0))
}

/// Returns whether decoders of this protocol are driven.
fn is_driven(letter: Letter) -> bool
    ensures { result ≡ is_driven letter }
{
    matches!(letter, Letter::N | Letter::P)
}

/// Notes that a locomotive is made. A locomotive has a place from then on.
pub(crate) fn make(engines: &mut [Engine], address: u32, letter: Letter, steps: u32)
    ensures { engines.new ≡ made engines.old address letter steps }
{
    if !is_cab(address) {
        return;
    }
    if let Some(n) = place_for(engines, address) {
        if n < engines.len() {
            engines[n] = Engine {
                address,
                steps: if is_driven(letter) { steps } else { 0 },
                is_forward: true,
                halts: None,
            };
        }
    }
}

/// Notes what a row has a locomotive do.
pub(crate) fn turn(engines: &mut [Engine], n: usize, drive: Drive)
    ensures { engines.new ≡ kept engines.old n drive }
{
    if n < engines.len() {
        let engine = engines[n];
        engines[n] = Engine {
            is_forward: drive.is_forward,
            halts: if halts(drive) { None } else { engine.halts },
            ..engine
        };
    }
}

/// Returns whether a locomotive makes an emergency stop.
fn halts(drive: Drive) -> bool
    ensures { result ≡ is_halt drive.speed }
{
    matches!(drive.speed, Speed::Halt)
}

/// Notes that the registry is asked to have a locomotive make an emergency stop: the row of such a stop does not say
/// the direction.
pub(crate) fn turn_asked(engines: &mut [Engine], put: Option<Put>)
    ensures { engines.new ≡ turned engines.old put }
{
    if let Some(Put::Cab(n, drive)) = put {
        if halts(drive) && n < engines.len() {
            let engine = engines[n];
            engines[n] = Engine {
                halts: Some(drive.is_forward),
                ..engine
            };
        }
    }
}

impl Engine {
    /// Returns the greatest speed of a row: that of the row, or else the steps of the decoder.
    fn top_of(self, vmax: u32) -> u32
        ensures value { result ≡ top_of self vmax }
        ensures some { 0 < result }
    {
        if vmax != 0 {
            vmax
        } else if self.steps != 0 {
            self.steps
        } else {
            1
        }
    }

    /// Returns the step of a speed, rounded up.
    fn scaled(self, v: u32, vmax: u32) -> u8
        ensures { result ≡ scaled self v vmax }
    {
        let top = u64::from(self.top_of(vmax));
        let step = (u64::from(v) * u64::from(GREATEST_STEP) + (top - 1)) / top;
        if step < u64::from(GREATEST_STEP) {
            step as u8
        } else {
            GREATEST_STEP
        }
    }

    /// Returns how fast a row has the locomotive drive.
    fn speed_of(self, mode: u32, v: u32, vmax: u32) -> Speed
        ensures { result ≡ speed_of self mode v vmax }
    {
        if mode == DriveMode::EmergencyStop as u32 {
            Speed::Halt
        } else if v == 0 {
            Speed::Stand
        } else {
            Speed::Step(self.scaled(v, vmax))
        }
    }

    /// Returns what a row has the locomotive do. An emergency stop is in the direction asked for, or else in that of
    /// before.
    fn drive_of(self, state: State) -> Drive
        ensures { result ≡ drive_of self state }
    {
        let is_forward = if state.mode == DriveMode::EmergencyStop as u32 {
            self.halts.unwrap_or(self.is_forward)
        } else {
            state.mode == DriveMode::Forward as u32
        };
        Drive {
            speed: self.speed_of(state.mode, state.v, state.vmax),
            is_forward,
        }
    }
}

/// Returns what a row has the locomotive at a place do, if that is driven.
pub(crate) fn drive_at(engines: &[Engine], n: usize, state: State) -> Option<Drive>
    ensures { result ≡ drive_at engines.now n state }
{
    match engines.get(n) {
        Some(engine) if engine.steps != 0 => Some(engine.drive_of(state)),
        _ => None,
    }
}
