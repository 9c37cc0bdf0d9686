//! The shape of a session: which frames both parties send, as everybody sees them who sees the line.
//!
//! `specs/Gates.antt` has the gates of each event, `specs/Shapes.antt` the frames of each event and of a whole list.
//! Both look at kinds and numbers alone and never at a value, so events that are alike have one shape.
#![tactic(auto)]

ghost use Rattle.session_shapes.specs.Laws.{EventsHaveAnds, ShapesSeeNoValue};

mod frames;

pub use frames::SeenFrame;

/// The list of gates of an event has as many ANDs as its frames are counted by.
pub fn events_have_ands()
    ensures { EventsHaveAnds }
{}

/// Events that differ in the integers of known operands alone have one shape.
pub fn shapes_see_no_value()
    ensures { ShapesSeeNoValue }
{}
