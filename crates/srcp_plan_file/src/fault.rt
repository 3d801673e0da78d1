//! The keys of a plan, and the texts of its faults.

ghost use Rattle.std.specs.Prelude.{◌≡◌, Some};
ghost use Rattle.srcp_plan_file.specs.Faults.{plan_key, plan_text};

use crate::plan::{Field, PlanFault};
use srcp_layout_file::member::Key;
use std::alloc::{AllocError, AllocFailed};
use std::fmt;

impl Key for Field {
    type Fault = PlanFault;

    ghost named = { plan_key };

    fn name(self) -> &'static str {
        match self {
            Field::Bus => "bus",
            Field::Route => "route",
            Field::Number => "number",
            Field::Turnouts => "turnouts",
            Field::Blocks => "blocks",
            Field::Signal => "signal",
            Field::Frees => "frees",
            Field::Sections => "sections",
            Field::Approach => "approach",
            Field::Delay => "delay",
            Field::Plan => "plan",
            Field::Legend => "legend",
            Field::From => "from",
            Field::To => "to",
            Field::Turnout => "turnout",
            Field::Sensor => "sensor",
            Field::Button => "button",
            Field::Names => "names",
            Field::Functions => "functions",
            Field::Name => "name",
        }
    }

    fn missing(self) -> PlanFault {
        PlanFault::Missing(self)
    }

    fn beyond(self) -> PlanFault {
        PlanFault::OutOfRange(self)
    }
}

impl fmt::Display for PlanFault {
    ghost output = { λ x. Some (plan_text x) };

    fn fmt<W: fmt::Write>(&self, f: &mut fmt::Formatter<W>) -> fmt::Result {
        match self {
            PlanFault::NotToml => write!(f, "plan: not TOML"),
            PlanFault::Missing(field) => {
                let key = field.name();
                write!(f, "plan: {key} missing")
            }
            PlanFault::OutOfRange(field) => {
                let key = field.name();
                write!(f, "plan: {key} out of range")
            }
            PlanFault::Unknown => write!(f, "plan: a key that is none of a plan"),
            PlanFault::UnknownIn(number) => {
                write!(f, "plan: route {number}: a key that is none of a route")
            }
            PlanFault::Twice(number) => write!(f, "plan: route {number} twice"),
            PlanFault::Beyond(number, field) => {
                let key = field.name();
                write!(f, "plan: route {number}: {key} out of range")
            }
            PlanFault::Repeated(number) => write!(f, "plan: route {number}: an accessory twice"),
            PlanFault::NoTrack(number) => {
                write!(f, "plan: route {number}: no track leads to its end")
            }
            PlanFault::Several(number) => {
                write!(f, "plan: route {number}: several tracks lead to its end")
            }
            PlanFault::NoWay(number) => {
                write!(f, "plan: route {number}: no track leads over its turnouts")
            }
            PlanFault::Mixed(number, other) => {
                write!(
                    f,
                    "plan: routes {number} and {other}: a signal of one is a turnout of the other"
                )
            }
            PlanFault::Crossed(number, other) => {
                write!(
                    f,
                    "plan: routes {number} and {other}: a port is go for one and stop for the other"
                )
            }
            PlanFault::Memory => write!(f, "out of memory"),
        }
    }
}

impl<T: Drop> From<AllocFailed<T>> for PlanFault {
    ghost use Rattle.srcp_plan_file.specs.declared.plan.PlanFault.TheVariants as fault;

    ghost from_gives = { λ _ e. e ≡ fault.Memory };

    fn from(_refused: AllocFailed<T>) -> PlanFault {
        PlanFault::Memory
    }
}

impl From<AllocError> for PlanFault {
    ghost use Rattle.srcp_plan_file.specs.declared.plan.PlanFault.TheVariants as fault;

    ghost from_gives = { λ _ e. e ≡ fault.Memory };

    fn from(_refused: AllocError) -> PlanFault {
        PlanFault::Memory
    }
}
