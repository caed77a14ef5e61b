//! Where a policy text has its first fault, and what is wrong there. Whether it has one, and which, is what
//! `sng_scope::read_policy` answers: a law joins the two.
#![tactic(auto)]

mod entries;
pub mod flaw;
mod grant;
pub mod laws;
mod limits;
pub mod location;
mod nesting;
mod pair;
mod policy;
pub mod position;
pub mod repeated;
mod scope;
mod stop;
mod text;

pub use flaw::Flaw;
pub use location::{Form, LimitName, Location, Part, Spot};
pub use policy::check_policy;
pub use position::Position;
pub use repeated::repeated_members;
pub use stop::{Found, Stop};
