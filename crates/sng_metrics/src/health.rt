//! Whether a gateway does its work.
ghost use Rattle.std.specs.Prelude.{◌≡◌};
ghost use Rattle.sng_metrics.specs.Healths.{is_well, reason_of};

/// What a gateway needs to serve.
#[derive(Clone, Copy, Debug, PartialEq, Eq)]
pub struct Health {
    /// The broker accepted the connection, and it stands.
    pub broker_is_up: bool,
    /// The book has room for rows.
    pub book_takes_rows: bool,
}

impl Health {
    /// Whether all is well.
    pub fn is_well(self) -> bool
        ensures { result ≡ is_well self.broker_is_up self.book_takes_rows }
    {
        self.broker_is_up && self.book_takes_rows
    }

    /// `ok`, or why not all is well, as a line.
    pub fn line(self) -> &'static str
        ensures { result.now ≡ reason_of self.broker_is_up self.book_takes_rows }
    {
        match (self.broker_is_up, self.book_takes_rows) {
            (true, true) => "ok\n",
            (false, true) => "the connection to the broker is not up\n",
            (true, false) => "the book takes no rows\n",
            (false, false) =>
                "the connection to the broker is not up, and the book takes no rows\n",
        }
    }
}
