//! Laws about a whole connection: what its streams give does not depend on how their bytes are cut, nor
//! on the order between streams.
#![tactic(auto)]

pub mod laws;
