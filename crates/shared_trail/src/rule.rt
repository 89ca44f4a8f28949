//! The rule of the one word to which all seats belong, and the kinds of step that keep it.
use crate::view::View;
use atomic_table::{Join, Play, Split, TableRule};
use cluster_world::{Event, World};

/// What holds of all seats' views together.
pub struct SeatRule;

impl TableRule<Event, View, World> for SeatRule {
    ghost use Rattle.shared_trail.specs.Rule.{Tied, first_view};

    ghost holds = { Tied };

    ghost first = { first_view };
}

/// The trail makes the next seat.
pub struct Deals;

impl Play<Event, View> for Deals {
    ghost use Rattle.shared_trail.specs.Rule.{DealStep};

    ghost then = { DealStep };
}

/// The trail puts an event in flight.
pub struct Begins;

impl Play<Event, View> for Begins {
    ghost use Rattle.shared_trail.specs.Rule.{BeginStep};

    ghost then = { BeginStep };
}

/// A node or a caller takes the event in flight.
pub struct Takes;

impl Play<Event, View> for Takes {
    ghost use Rattle.shared_trail.specs.Rule.{TakeStep};

    ghost then = { TakeStep };
}

/// The event in flight is the last one of the trail.
pub struct Ends;

impl Play<Event, View> for Ends {
    ghost use Rattle.shared_trail.specs.Rule.{EndStep};

    ghost then = { EndStep };
}

/// What a seat knows is shown, and stays.
pub struct Shows;

impl Play<Event, View> for Shows {
    ghost use Rattle.shared_trail.specs.Rule.{ShowStep};

    ghost then = { ShowStep };
}

/// A seat is given back, once.
pub struct Settles;

impl Play<Event, View> for Settles {
    ghost use Rattle.shared_trail.specs.Rule.{SettleStep};

    ghost then = { SettleStep };
}

/// The trail's view with another's, or the two apart.
pub struct Pair;

impl Split<View> for Pair {
    ghost use Rattle.shared_trail.specs.Rule.{left_of, right_of};

    ghost left = { left_of };

    ghost right = { right_of };
}

impl Join<View> for Pair {
    ghost use Rattle.shared_trail.specs.Rule.{together, empty_view};

    ghost both = { together };

    ghost spent = { empty_view };
}
