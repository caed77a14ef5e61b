//! What an operator's tools read of a running gateway: requests for its pages and their answers (HTTP/1.1, RFC
//! 9110 and 9112), the page of its figures (the text format of Prometheus, 0.0.4), its health, and the table of
//! `sng status`, which is read off such a page. Nothing here opens a socket or asks a clock: octets come and go
//! by whoever calls.
#![tactic(auto)]

pub mod answer;
mod counts;
pub mod figures;
mod gauges;
pub mod health;
pub mod heard;
pub mod laws;
pub mod limits;
pub mod metric;
mod number;
pub mod page;
mod reading;
mod request;
pub mod response;
mod sample;
pub mod status;
pub mod summary;
pub mod table;
pub mod visitor;

pub use answer::{health_answer, refusal_answer};
pub use figures::{ClientFigures, Figures};
pub use health::Health;
pub use heard::{Form, Heard, Page, Refusal};
pub use limits::{MAX_FIELDS, MAX_REQUEST};
pub use metric::Metric;
pub use page::{metrics_answer, push_page};
pub use response::{Answer, AnswerFault, USUAL_METRICS, read_answer, request_for};
pub use summary::{Summary, SummaryFault, Traffic, read_summary};
pub use table::push_table;
pub use visitor::Visitor;
