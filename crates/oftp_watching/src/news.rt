//! The events that nobody has told yet.

use crate::moment::Moment;
use std::alloc::Global;
use std::cell::{Cell, RefCell};

/// What happened since it was last asked. Whoever makes changes notes them here, and whoever writes events takes them.
#[derive(Drop)]
pub struct News {
    moments: RefCell<Vec<Moment>>,
    lost: Cell<u64>,
}

impl News {
    /// Nothing yet.
    pub fn new(alloc: Global) -> News {
        News {
            moments: RefCell::new(Vec::new(alloc)),
            lost: Cell::new(0),
        }
    }

    /// Notes what happened. One for which there is no memory is counted.
    pub fn note(&self, moment: Moment) {
        let is_noted = match self.moments.try_borrow_mut() {
            Ok(mut moments) => moments.push(moment).is_ok(),
            Err(_) => false,
        };
        if !is_noted {
            self.lose();
        }
    }

    /// Counts an event that can't be told.
    pub fn lose(&self) {
        self.lost.set(self.lost.get().saturating_add(1));
    }

    /// How many couldn't be told.
    pub fn lost(&self) -> u64 {
        self.lost.get()
    }

    /// Takes what was noted, in its order.
    pub fn take(&self, alloc: Global) -> Vec<Moment> {
        match self.moments.try_replace(Vec::new(alloc)) {
            Ok(moments) => moments,
            Err(_) => Vec::new(alloc),
        }
    }
}
