//! A port of 127.0.0.1 over TCP that keeps its connections open, and gives out the one that has
//! something to read. This is the trusted edge: no clause says what a socket carries, what the
//! system tells of it, or which connection comes next. What is proved is that failures are counted,
//! that nothing is read or written past its buffer, and that each call returns.
#![tactic(auto)]

mod conn;
mod inlet;
mod link;
mod news;
mod pending;
mod port;
mod slot;
mod slots;

pub use conn::TcpConn;
pub use port::TcpPort;
