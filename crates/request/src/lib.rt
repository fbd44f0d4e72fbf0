//! The requests to a stack and its replies, as values, and the script lines that express them.
#![tactic(auto)]

mod address;
mod keyword;
mod laws;
mod print;
mod read;
mod reply;
mod request;

pub use address::{address_of, put_address};
pub use laws::lines_law;
pub use print::{TEXT, put_line, put_long, put_reply};
pub use read::request_of;
pub use reply::Reply;
pub use request::Request;
