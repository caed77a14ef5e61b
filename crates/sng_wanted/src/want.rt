//! What is kept of one filter.

/// What is kept of a filter.
#[derive(Clone, Copy, Debug, Drop)]
pub enum Want {
    /// It stands for nobody any more, and is kept only until the next sweep.
    Ended,
    /// It stands for somebody.
    Stands(Stand),
}

/// How a filter that stands is kept upstream.
#[derive(Clone, Copy, Debug, Drop)]
pub struct Stand {
    /// The packet id of its SUBSCRIBE that waits for its SUBACK (MQTT 3.1.1, 3.9), where one does.
    pub open_id: Option<u16>,
    /// Whether a SUBSCRIBE of it is owed, which has to leave as soon as one more may be open.
    pub owed: bool,
}
