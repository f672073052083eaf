//! What is made for whoever asked, and whether the office failed meanwhile.

ghost use Rattle.std.specs.Prelude.{◌≡◌, IfOk, None, string_bytes};
ghost use Rattle.oftp_requests.specs.Judged.{ending_with, office_after};
ghost use Rattle.oftp_requests.specs.Lines.{IsEndOf, line_of_ending, told_ending};

use crate::answers::answer_of;
use crate::asked::Order;
use crate::judging::{ending_with, office_after};
use crate::lines::line_of_ending;
use oftp_channel::Ending;
use oftp_listing::{ListFault, OfficeState, Query, Reply, stopping_reply};
use oftp_outcomes::{Fault, Outcome, Trouble};
use std::alloc::Global;

/// The answer to a request, and whether the office failed while it was made.
#[derive(Drop)]
pub struct Made {
    /// Its octets; none if there was no memory for them.
    pub octets: Vec<u8>,
    pub office: OfficeState,
    // The end with which they end, if they are those of a command's answer.
    ending: Option<Ending>,
}

impl Made {
    /// No answer: the connection is closed.
    pub fn nothing(alloc: Global) -> Made {
        Made::replied(Vec::new(alloc), OfficeState::Working)
    }

    /// The answer over HTTP with these octets.
    pub fn replied(octets: Vec<u8>, office: OfficeState) -> Made {
        Made {
            octets,
            office,
            ending: None,
        }
    }

    /// The answer to a command whose order was carried out.
    pub fn obeyed(alloc: Global, order: Order) -> Made {
        let outcome = match order {
            Order::Stop(_) => Outcome::Stopped,
            Order::Reload => Outcome::Reloaded,
        };
        Made::of(alloc, &[], Ok(Ending::Outcome(outcome)))
    }

    /// The answer to a command whose order failed.
    pub fn failed(alloc: Global, fault: Fault) -> Made {
        Made::of(alloc, &[], Err(fault))
    }

    /// The answer to a command with this content and this end, or this error.
    pub(crate) fn of(alloc: Global, content: &[u8], ending: Result<Ending, Fault>) -> Made
        ensures office { result.office ≡ office_after (ending_with ending) }
        ensures ending { IsEndOf (ending_with ending) result.octets.items result.ending }
    {
        let ending = ending_with(ending);
        let office = office_after(&ending);
        match answer_of(alloc, content, ending) {
            Some(octets) => Made {
                octets,
                office,
                ending: Some(ending),
            },
            None => Made {
                octets: Vec::new(alloc),
                office,
                ending: None,
            },
        }
    }

    /// The line of the end of a command's answer. An answer without an end, for which there was no memory, has that of out of memory.
    ///
    /// # Errors
    /// [`Fault::MEMORY`].
    pub fn line(&self, alloc: Global) -> Result<String, Fault>
        ensures { IfOk result (λ line. string_bytes line ≡ line_of_ending (told_ending self.now.ending)) }
    {
        line_of_ending(
            alloc,
            match self.ending {
                Some(ending) => ending,
                None => Ending::Failed(Fault::MEMORY),
            },
        )
    }

    /// The answer to a command that asks for something of the station itself: this content, or this error.
    pub fn told(alloc: Global, content: Result<Vec<u8>, Fault>) -> Made {
        match content {
            Ok(content) => Made::of(alloc, content.as_slice(), Ok(Ending::Listed)),
            Err(fault) => Made::of(alloc, &[], Err(fault)),
        }
    }

    /// The answer over HTTP: this reply. One that couldn't be made is none, and its error is returned beside it.
    pub fn of_reply(alloc: Global, reply: Result<Reply, ListFault>) -> (Made, Option<Trouble>) {
        let fault = match reply {
            Ok(reply) => {
                let office = reply.office();
                let octets = reply.into_octets();
                return (Made::replied(octets, office), None);
            }
            Err(fault) => Fault::from(fault).in_memory(),
        };
        let octets = Vec::new(alloc);
        let office = office_after(&Ending::Failed(fault));
        (
            Made::replied(octets, office),
            Some(Trouble::OfService(fault)),
        )
    }

    /// The answer to what is asked for over HTTP whatever the register has, if there is one.
    pub fn of_any(alloc: Global, query: Query) -> Option<Made> {
        let reply = query.reply_of_any(alloc).ok()??;
        let (made, _) = Made::of_reply(alloc, Ok(reply));
        Some(made)
    }
}

/// The octets of the reply over HTTP to a request that isn't answered, since the station ends; none if there is no memory for them.
pub fn stopping(alloc: Global) -> Vec<u8> {
    match stopping_reply(alloc) {
        Ok(reply) => reply.into_octets(),
        Err(_) => Vec::new(alloc),
    }
}
