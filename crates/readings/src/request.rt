// What a readings file asks for: a paving of a start, at a grain, by readings of which some may be wrong, but not all.
ghost use Rattle.std.specs.Prelude.{◌<◌};

use crate::readings::Readings;
use dial::arc::Arc;
use leaves::arc::ArcReading;
use leaves::plane_reading::PlaneReading;
use plane::plane_box::PlaneBox;
use sheet::grain::Grain;

#[derive(Drop)]
pub struct Request<P, R> {
    pub liars: u16,
    pub grain: Grain,
    pub start: P,
    pub readings: Readings<R>,
    ghost believed: { liars < readings.len },
}

#[derive(Drop)]
pub enum Asked {
    Plane(Request<PlaneBox, PlaneReading>),
    Dial(Request<Arc, ArcReading>),
}
