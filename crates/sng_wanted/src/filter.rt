//! A filter that stands, as a copy tells it.
ghost use Rattle.std.specs.Prelude.{◌≡◌};

use crate::want::Stand;
use sng_text::{Compare, TopicFilter};
use std::marker::Model;

/// A filter that stands for somebody, with the packet id of its SUBSCRIBE that waits for its SUBACK (MQTT
/// 3.1.1, 3.9), where one does, and whether one is owed.
#[derive(Debug, Drop)]
pub struct WantedFilter {
    filter: TopicFilter,
    open_id: Option<u16>,
    owed: bool,
}

impl Model for WantedFilter {
    ghost use Rattle.sng_history.specs.Links.{Wanted};

    ghost Value = { Wanted };

    ghost view = { λ w. record { filter = w.filter; open_id = w.open_id; owed = w.owed } };
}

impl WantedFilter {
    /// The filter that stands so.
    pub(crate) fn new(filter: TopicFilter, stand: Stand) -> WantedFilter
        ensures { result ≡ record { filter = filter; open_id = stand.open_id; owed = stand.owed } }
    {
        WantedFilter {
            filter,
            open_id: stand.open_id,
            owed: stand.owed,
        }
    }

    /// The filter.
    pub fn filter(&self) -> &TopicFilter
        ensures { result.now ≡ self.now.filter }
    {
        &self.filter
    }

    /// The packet id of its open SUBSCRIBE.
    pub fn open_id(&self) -> Option<u16>
        ensures { result ≡ self.now.open_id }
    {
        self.open_id
    }

    /// Whether a SUBSCRIBE of it is owed.
    pub fn is_owed(&self) -> bool
        ensures { result ≡ self.now.owed }
    {
        self.owed
    }
}

impl Compare for WantedFilter {
    fn same(&self, other: &WantedFilter) -> bool {
        self.filter.same(&other.filter)
            && self.open_id.same(&other.open_id)
            && self.owed == other.owed
    }
}
