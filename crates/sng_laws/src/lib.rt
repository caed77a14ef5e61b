//! What a reader of the audit book sees who looks back through its rows, and the laws in those words: what
//! the gateway promises. There are definitions alone here, in specs/, and no proof: that every lawful history
//! keeps these laws is proved in `sng_promise`. Of the machine of `sng_history` they cite its limits and
//! eight names, as the types of what is kept of a client and of the link, and how a will is stated.
#![tactic(auto)]
