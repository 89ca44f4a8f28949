//! The words of a plan's lines, with the spaces beside them, as they are printed.

pub(crate) const SETSLOT: &str = "setslot ";

pub(crate) const IMPORTING: &str = " importing ";

pub(crate) const MIGRATING: &str = " migrating ";

pub(crate) const NODE: &str = " node ";

pub(crate) const STABLE_AT: &str = " stable at ";

pub(crate) const DRAIN: &str = "drain ";

pub(crate) const MOVE: &str = "move ";

pub(crate) const FROM: &str = " from ";

pub(crate) const AT: &str = " at ";

pub(crate) const TO: &str = " to ";

pub(crate) const BY: &str = " by ";
