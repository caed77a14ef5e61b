//! Places in a policy text.
use sng_text::Octets;

/// A part of a policy, which has members of its own.
#[derive(Clone, Copy, Debug, PartialEq, Eq)]
pub enum Part {
    Clients,
    Sources,
    Topics,
}

/// A limit that a policy may set.
#[derive(Clone, Copy, Debug, PartialEq, Eq)]
pub enum LimitName {
    Clients,
    InFlight,
    Sources,
    Topics,
    Waiting,
}

/// Where the JSON of a value stands.
#[derive(Clone, Copy, Debug, PartialEq, Eq)]
pub enum Form {
    /// In the policy text itself.
    Plain,
    /// In a text of base64url that stands there (RFC 4648, 5).
    Encoded,
}

/// A place in the value of a member. Pairs, and the permissions of a pair, are counted from 0.
#[derive(Clone, Copy, Debug, PartialEq, Eq)]
pub enum Spot {
    /// The value as a whole.
    Whole,
    /// A pair of a scope.
    Pair(usize),
    /// The filter of this pair.
    Filter(usize),
    /// The permissions of this pair.
    Permissions(usize),
    /// Of this pair, this permission.
    Permission(usize, usize),
}

/// A place in a policy text.
#[derive(Debug, Drop)]
pub enum Location {
    /// The text as a whole.
    Whole,
    /// The version.
    Version,
    /// The member of the policy with this name, which is not known.
    Member(Octets),
    /// The limits as a whole.
    Limits,
    /// The member of the limits with this name.
    LimitMember(Octets),
    /// The number of this limit.
    Limit(LimitName),
    /// The clients, the sources or the topics as a whole.
    Part(Part),
    /// The name of a member of the part.
    Name(Part, Octets),
    /// A place in the value of the member of this name.
    Value(Part, Octets, Form, Spot),
    /// In the object that is the value of the member of this name, the member of that name, which is not known.
    Other(Part, Octets, Octets),
    /// The end that is given in such an object.
    End(Part, Octets),
    /// A place in the scope that is given in such an object.
    Scope(Part, Octets, Form, Spot),
}
