//! Laws of the definitions that the contracts cite. Each function does nothing: its contract is the law.
ghost use Rattle.sng_gateway.specs.EventLaws.{EventsArePlayed};

/// A line that says an event, as `event_line` of `sng_script` answers one, is played as just this event.
pub fn events_are_played()
    ensures { EventsArePlayed }
{}
