//! How far places are from one another.

ghost use Rattle.std.specs.Prelude.{◌≡◌, ◌+◌, ◌≤◌, ◌<◌, ◌^◌, nat_abs, length, if◌then◌else◌};
ghost use Rattle.mf_base.specs.Buffer.{HasRoom, AppendsTo};
ghost use Rattle.map_model.specs.Layout as layout;
ghost use Rattle.map_model.specs.Layout.{step_bytes};
ghost use Rattle.way_delta.specs.Steps.{shown, IsStepBelow};

use mf_base::out_buf::OutBuf;
use mf_base::place::Place;
use mf_base::vbe::{put_vbe_s, size_vbe_s};

/// How far a place is from another, or a step from the one before, in microdegrees.
#[derive(Clone, Copy, Debug, PartialEq, Eq)]
pub struct Step {
    pub lat: i64,
    pub lon: i64,
}

/// How far `to` is from `from`.
pub fn step_between(from: Place, to: Place) -> Step
    ensures step { shown result ≡ layout.step from to }
    ensures small { IsStepBelow (2 ^ 33) result }
{
    Step {
        lat: i64::from(to.lat) - i64::from(from.lat),
        lon: i64::from(to.lon) - i64::from(from.lon),
    }
}

/// Puts a step, latitude before longitude.
pub fn put_step(out: &mut OutBuf, step: Step)
    requires fits { IsStepBelow (2 ^ 63) step }
    requires room { HasRoom out.old (length (step_bytes (shown step)) + 10) }
    ensures appends { AppendsTo out.old out.new (step_bytes (shown step)) }
{
    put_vbe_s(out, step.lat);
    put_vbe_s(out, step.lon);
}

/// How many bytes `put_step` puts.
pub fn size_step(step: Step) -> u64
    requires fits { IsStepBelow (2 ^ 63) step }
    ensures size { result ≡ length (step_bytes (shown step)) }
    ensures most { result ≤ 20 }
{
    u64::from(size_vbe_s(step.lat) + size_vbe_s(step.lon))
}

// What is written of a step behind another: under double delta how far it is from that one.
pub(crate) fn written(step: Step, last: Step, double: bool) -> Step
    requires small { IsStepBelow (2 ^ 33) step × IsStepBelow (2 ^ 33) last }
    ensures written { shown result ≡ (if double then layout.step (shown last) (shown step) else shown step) }
    ensures small { IsStepBelow (2 ^ 34) result }
{
    if double {
        Step {
            lat: step.lat - last.lat,
            lon: step.lon - last.lon,
        }
    } else {
        step
    }
}
