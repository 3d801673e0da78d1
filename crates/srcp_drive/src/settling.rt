//! One step of the driver, with the places that have no locomotive.

ghost use Rattle.std.specs.Prelude.{◌≡◌};
ghost use Rattle.srcp_drive.specs.Settling.{answered, asks, echo_of};

use crate::engine::{Engine, cab_at};
use srcp_driver::{Driver, Event, Orders, Tell};

/// Returns what a locomotive would report that an order is for, if the order is for a place that has none.
fn echo_of(engines: &[Engine], tell: Option<Tell>) -> Option<Event>
    ensures { result ≡ echo_of engines.now tell }
{
    match tell {
        Some(Tell::Cab(n, drive)) if cab_at(engines, n).is_none() => Some(Event::Said(n, drive)),
        _ => None,
    }
}

/// Answers orders for places that have no locomotive as a station would, as many as that. Returns the first order for a
/// locomotive, and what the registry is asked.
pub(crate) fn settle(driver: &mut Driver, engines: &[Engine], left: usize, orders: Orders) -> Orders
    ensures table { driver.new ≡ (answered left engines.now (asks driver.old orders)).table }
    ensures tell { result.tell ≡ (answered left engines.now (asks driver.old orders)).tell }
    ensures put { result.put ≡ (answered left engines.now (asks driver.old orders)).put }
{
    if left == 0 {
        return orders;
    }
    match echo_of(engines, orders.tell) {
        Some(event) => {
            let more = driver.step(event);
            let put = orders.put.or(more.put);
            settle(
                driver,
                engines,
                left - 1,
                Orders {
                    tell: more.tell,
                    put,
                },
            )
        }
        None => orders,
    }
}
