//! What one column of the grant table keeps: which incarnation of each service stands, the greatest
//! that was installed, the tokens that were issued, and the sessions that were opened. Each call
//! changes what is kept of one service, and takes the same time however long the column's journal is.
#![tactic(auto)]

mod grants;
mod head;

pub use grants::Grants;
pub use head::{Granting, Head};
