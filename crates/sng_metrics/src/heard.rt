//! What comes of a visitor's octets.

/// A page that the gateway has.
#[derive(Clone, Copy, Debug, PartialEq, Eq)]
pub enum Page {
    /// The figures, for Prometheus: `/metrics`.
    Metrics,
    /// Whether all is well: `/healthz`.
    Health,
}

/// How much of an answer is wanted.
#[derive(Clone, Copy, Debug, PartialEq, Eq)]
pub enum Form {
    /// All of it.
    Whole,
    /// Its head alone, as HEAD asks for (RFC 9110, 9.3.2).
    HeadOnly,
}

/// Why a request gets no page.
#[derive(Clone, Copy, Debug, PartialEq, Eq)]
pub enum Refusal {
    /// It is no request of HTTP/1.1 or 1.0, or does not say for which host it is (RFC 9112, 3.2).
    Malformed,
    /// There is no such page.
    NotFound,
    /// It asks for another method than GET or HEAD.
    Method,
    /// It did not come in time: who reads the visitor's octets says so.
    TooSlow,
    /// Its head has more than `MAX_REQUEST` octets or `MAX_FIELDS` field lines.
    TooLarge,
}

/// What is heard of a visitor.
#[derive(Clone, Copy, Debug, PartialEq, Eq)]
pub enum Heard {
    /// More octets have to come.
    More,
    /// It asks for this page.
    Asked(Page, Form),
    /// It is told why it gets none.
    Refused(Refusal, Form),
}
