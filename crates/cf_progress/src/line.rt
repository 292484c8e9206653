//! The lines that tell of a call.
use cf_tree::{Answer, Request};
use std::fmt;

/// A call that is made: the lane's name, the token, and what is asked for.
#[derive(Clone, Copy)]
pub struct Asked<'a> {
    pub lane: &'a str,
    pub token: u64,
    pub request: &'a Request,
}

/// A call that is answered.
#[derive(Clone, Copy)]
pub struct Answered<'a> {
    pub asked: Asked<'a>,
    pub answer: &'a Answer,
}

impl fmt::Display for Asked<'_> {
    fn fmt<W: fmt::Write>(&self, f: &mut fmt::Formatter<W>) -> fmt::Result {
        let lane = self.lane;
        let token = self.token;
        match self.request {
            Request::Create { kind, props: _ } => {
                write!(f, "{lane} {token} create {}", kind.as_str())
            }
            Request::Update { physical, props: _ } => {
                write!(f, "{lane} {token} update {}", physical.as_str())
            }
            Request::Delete { physical } => {
                write!(f, "{lane} {token} delete {}", physical.as_str())
            }
        }
    }
}

impl fmt::Display for Answered<'_> {
    fn fmt<W: fmt::Write>(&self, f: &mut fmt::Formatter<W>) -> fmt::Result {
        let asked = self.asked;
        match self.answer {
            Answer::Success { physical, attrs: _ } => {
                write!(f, "{asked} -> success {}", physical.as_str())
            }
            Answer::Failed { code } => write!(f, "{asked} -> failed {code}"),
            Answer::Fault => write!(f, "{asked} -> fault"),
            Answer::Stale { fence } => write!(f, "{asked} -> stale {fence}"),
            Answer::NoMemory => write!(f, "{asked} -> no memory"),
        }
    }
}
