//! The texts of HTTP requests and responses: phrases of statuses, responses, the path of a request's
//! target and the length in a Content-Length field. All are pure functions of bytes.
#![tactic(auto)]

pub mod length;
pub mod response;
pub mod status;
pub mod target;
