//! The requests of commands and over HTTP, and their answers.

use crate::home::Home;
use crate::peer::{Peer, Reading, Task};
use crate::service::{Shelf, Shell, paces_of, peer_in};
use oftp_channel::{Ending, Haste};
use oftp_engine::RunFault;
use oftp_files::read_regular_book;
use oftp_life::Life;
use oftp_listing::{ListFault, OfficeState, Query, Reply};
use oftp_outcomes::{Fault, Outcome, Trouble};
use oftp_page::PAGE;
use oftp_partners::Book;
use oftp_register::Office;
use oftp_requests::{
    Asked, Made, Order, Sought, bare_answer, codes_of, copy_let, declined, office_within,
    overdues_of, stopping, told_status,
};
use oftp_schedule::connection::{Event, Reason, Signal};
use oftp_sockets::Keeper;
use std::alloc::Global;

impl<'a> Shell<'a> {
    /// Does a look-up, and tells the length of its answer.
    pub(crate) fn look<O: Office + Drop>(
        &mut self,
        id: u64,
        home: &mut Home<'_, O>,
        keeper: &mut impl Keeper<Life<O>>,
    ) -> Result<(), Fault> {
        if let Some(order) = self.order_of(id) {
            return self.obey(id, order);
        }
        let rt = self.rt;
        let alloc = rt.alloc();
        let Some(peer) = peer_in(&mut self.peers, id) else {
            return self.take_answer(id, Made::nothing(alloc));
        };
        if let Some(sought) = peer.sought {
            let made = match sought {
                Sought::Events => self.made_of_events(),
                sought => self.made_of_station(id, sought, home, keeper),
            };
            return self.take_answer(id, made);
        }
        if let Some(made) = peer.look_nowhere(alloc) {
            return self.take_answer(id, made);
        }
        if let Err(trouble) = home.open(rt, keeper) {
            peer.note(Err(trouble));
        }
        let mut made = peer.look_at(alloc, home);
        made.office = office_within(keeper.term(), made.office);
        self.take_answer(id, made)
    }

    /// Makes a change, and tells the length of its answer.
    pub(crate) fn change<O: Office + Drop>(
        &mut self,
        id: u64,
        home: &mut Home<'_, O>,
        keeper: &mut impl Keeper<Life<O>>,
    ) -> Result<(), Fault> {
        if let Some(order) = self.order_of(id) {
            return self.obey(id, order);
        }
        let rt = self.rt;
        let alloc = rt.alloc();
        let opened = home.open(rt, keeper);
        self.take_name(id);
        self.record_call(id)?;
        let made = match peer_in(&mut self.peers, id) {
            Some(peer) => peer.change(alloc, home),
            None => Made::nothing(alloc),
        };
        self.record_answer(id, &made)?;
        self.take_answer(id, made)?;
        self.settle_opening(opened)
    }

    /// Takes the name of a command's end away, if it has one. Whose command it is, is known by that.
    pub(crate) fn take_name(&mut self, id: u64) {
        let rt = self.rt;
        if let Some(place) = self.config.place
            && let Some(peer) = peer_in(&mut self.peers, id)
            && let Task::Command(_) = &peer.task
            && let Some(name) = peer.stream.name()
        {
            peer.user = place.take_user(rt, &name);
        }
    }

    /// The user whose command it is, if that is known.
    pub(crate) fn user_of(&self, id: u64) -> Option<u32> {
        self.peers.iter().find(|peer| peer.id == id)?.user
    }

    /// What a command asks of the station itself, if it does.
    fn order_of(&self, id: u64) -> Option<Order> {
        match &self.peers.iter().find(|peer| peer.id == id)?.task {
            Task::Command(Some(asked)) => asked.order(),
            _ => None,
        }
    }

    /// Does what a command asks of the station itself, and tells the length of its answer.
    fn obey(&mut self, id: u64, order: Order) -> Result<(), Fault> {
        let obeyed = match order {
            Order::Stop(_) => Ok(()),
            Order::Reload => self.reload(),
        };
        let alloc = self.rt.alloc();
        let made = match obeyed {
            Ok(()) => Made::obeyed(alloc, order),
            Err(fault) => Made::failed(alloc, fault),
        };
        self.take_answer(id, made)?;
        match order {
            Order::Stop(haste) => self.stop(haste),
            Order::Reload => Ok(()),
        }
    }

    /// Lets the service end.
    fn stop(&mut self, haste: Haste) -> Result<(), Fault> {
        self.stop = Some(haste);
        self.say(Event::Over(told_status(haste)))
    }

    /// Reads the book again. After an error it is the one that it was. Partners who are here already are served by that one.
    fn reload(&mut self) -> Result<(), Fault> {
        let Some(shelf) = self.config.shelf else {
            return Err(Fault::Socket);
        };
        let (octets, book) = read_regular_book(self.rt, shelf.path)?;
        if octets.as_slice() != self.latest {
            self.take_limits(shelf, octets.as_slice())?;
            self.take_book(shelf, octets, book)?;
        }
        Ok(())
    }

    /// Takes how long something of a partner may wait from a book with these octets.
    fn take_limits(&mut self, shelf: Shelf<'a>, octets: &[u8]) -> Result<(), Fault> {
        let limits = overdues_of(self.rt.alloc(), octets)?;
        let limits = shelf.room.try_alloc(limits)?;
        self.config.limits = limits.as_slice();
        Ok(())
    }

    /// Serves by a book with these octets from now on.
    fn take_book(&mut self, shelf: Shelf<'a>, octets: Vec<u8>, book: Book) -> Result<(), Fault> {
        let alloc = self.rt.alloc();
        let codes = codes_of(alloc, octets.as_slice())?;
        let paces = paces_of(alloc, codes.as_slice())?;
        let codes = shelf.room.try_alloc(codes)?;
        let octets = shelf.room.try_alloc(octets)?;
        self.station.book = shelf.room.try_alloc(book)?;
        self.config.codes = codes.as_slice();
        self.paces = paces;
        self.latest = octets.as_slice();
        Ok(())
    }

    /// Takes in whether a life could be had.
    pub(crate) fn settle_opening(&mut self, opened: Result<(), Trouble>) -> Result<(), Fault> {
        match opened {
            Ok(()) | Err(Trouble::OfJob(_)) => Ok(()),
            Err(Trouble::OfService(fault)) => self.fail(fault),
        }
    }

    /// Keeps an answer, and tells its length.
    fn take_answer(&mut self, id: u64, made: Made) -> Result<(), Fault> {
        let Made { octets, office, .. } = made;
        let length = octets.len() as u64;
        if let Some(peer) = peer_in(&mut self.peers, id) {
            peer.answer = Some(octets);
        }
        self.tell_now(id, Signal::Done(length))?;
        match office {
            OfficeState::Working => Ok(()),
            OfficeState::Failed => self.fail(Fault::Run(RunFault::Office)),
        }
    }

    /// Sends the answer that was made.
    pub(crate) fn answer(&mut self, id: u64) -> Result<(), Fault> {
        let alloc = self.rt.alloc();
        self.count_backup(id);
        let Some(peer) = peer_in(&mut self.peers, id) else {
            return Ok(());
        };
        let answer = match peer.answer.take() {
            Some(answer) => answer,
            None => bare_answer(alloc, peer.ending()),
        };
        self.send_answer(id, answer)
    }

    /// Answers that what was asked for isn't done.
    pub(crate) fn decline(&mut self, id: u64, reason: Reason) -> Result<(), Fault> {
        let alloc = self.rt.alloc();
        let Some(peer) = peer_in(&mut self.peers, id) else {
            return Ok(());
        };
        let answer = match (&peer.task, reason) {
            (Task::Visitor(_), _) => stopping(alloc),
            (_, reason) => bare_answer(alloc, Ending::Failed(declined(reason))),
        };
        self.send_answer(id, answer)
    }

    /// Lets an answer go out. An empty one, for which there was no memory, has gone out at once.
    fn send_answer(&mut self, id: u64, answer: Vec<u8>) -> Result<(), Fault> {
        let Some(peer) = peer_in(&mut self.peers, id) else {
            return Ok(());
        };
        peer.reading = Reading::Nothing;
        let is_said = peer.say(answer).is_ok();
        if is_said && peer.left() > 0 {
            return Ok(());
        }
        self.tell(id, Signal::Went(0))
    }

    /// Lets a command copy the database's files.
    pub(crate) fn let_copy<O: Office + Drop>(
        &mut self,
        id: u64,
        home: &mut Home<'_, O>,
        keeper: &mut impl Keeper<Life<O>>,
    ) -> Result<(), Fault> {
        self.record_backup(id, home, keeper)?;
        let octets = copy_let(self.rt.alloc());
        let Some(peer) = peer_in(&mut self.peers, id) else {
            return Ok(());
        };
        peer.reading = Reading::Copy;
        if let Some(octets) = octets
            && peer.say(octets).is_ok()
        {
            return Ok(());
        }
        self.tell(id, Signal::Lost)
    }

    /// Lets the last octets go out, and drops what comes.
    pub(crate) fn part(&mut self, id: u64) {
        if let Some(peer) = peer_in(&mut self.peers, id) {
            peer.reading = Reading::Rest;
            peer.end_writing();
        }
    }
}

impl Peer<'_> {
    /// What is answered whatever the register has, if it is such a request.
    fn look_nowhere(&self, alloc: Global) -> Option<Made> {
        match &self.task {
            Task::Visitor(Some(Ok(query))) => Made::of_any(alloc, *query),
            _ => None,
        }
    }

    /// Makes the change that it asks for, in a life that is here.
    fn change<O: Office + Drop>(&self, alloc: Global, home: &mut Home<'_, O>) -> Made {
        match (&self.task, home) {
            (Task::Command(Some(asked)), Home::Idle(life)) => asked.change(alloc, life),
            _ => Made::nothing(alloc),
        }
    }

    /// Looks up what it asks for, in a life that is here.
    fn look_at<O: Office + Drop>(&mut self, alloc: Global, home: &mut Home<'_, O>) -> Made {
        match &self.task {
            Task::Command(Some(asked)) => look_in(alloc, asked, home),
            Task::Visitor(Some(query)) => {
                let reply = reply_in(alloc, *query, home);
                let (made, trouble) = Made::of_reply(alloc, reply);
                if let Some(trouble) = trouble {
                    self.note(Err(trouble));
                }
                made
            }
            _ => Made::nothing(alloc),
        }
    }

    /// The error of a request over HTTP that has no answer for it.
    pub(crate) fn trouble(&self) -> Option<Trouble> {
        match (&self.task, self.ended) {
            (Task::Visitor(_), Some(Err(trouble))) => Some(trouble),
            _ => None,
        }
    }

    /// The end of what needed no answer of the office: a copy that is done, or a call that was never made.
    fn ending(&self) -> Ending {
        match self.reading {
            Reading::Copy => Ending::Outcome(Outcome::BackedUp),
            _ => Ending::Failed(Fault::Socket),
        }
    }
}

/// Looks up what a command asks for, in a life that is here.
fn look_in<O: Office + Drop>(alloc: Global, asked: &Asked, home: &mut Home<'_, O>) -> Made {
    match home {
        Home::Idle(life) => asked.look(alloc, life),
        Home::Talking(session) => asked.look(alloc, session),
        Home::Away => Made::nothing(alloc),
    }
}

/// The reply to what is asked for over HTTP, of a life that is here.
fn reply_in<O: Office + Drop>(
    alloc: Global,
    query: Result<Query, ListFault>,
    home: &mut Home<'_, O>,
) -> Result<Reply, ListFault> {
    let query = query?;
    match home {
        Home::Idle(life) => query.reply(alloc, PAGE, life),
        Home::Talking(session) => query.reply(alloc, PAGE, session),
        Home::Away => Err(ListFault::Memory),
    }
}
