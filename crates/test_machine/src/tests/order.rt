// A sink that keeps a number by which two runs with different ports, or in another order, are told apart.
ghost use Rattle.std.specs.Prelude.{ℕ, List, ◌∷◌};
ghost use Rattle.md_trace.specs.declared.event.Event.{Event};
ghost use Rattle.md_trace.specs.PortHistory.{SiteTable, IsPortHistory};

use md_base::{NoMemory, ProcId, SiteId};
use md_trace::PortSink;

/// A number made of the events so far, and how many were called.
#[derive(Clone, Copy, Debug, PartialEq, Eq)]
pub struct Order {
    number: u64,
    called: u64,
}

impl Order {
    pub fn new() -> Order {
        Order {
            number: 1,
            called: 0,
        }
    }

    fn take(&mut self, word: u64) {
        self.number = (self.number ^ word).wrapping_mul(0x0000_0100_0000_01b3);
        self.number = self.number.rotate_left(23);
    }

    /// Takes the call of this activation.
    pub fn call(&mut self, act: u64, site: Option<u32>, callee: u64) {
        self.called = self.called.wrapping_add(1);
        self.port(0, act);
        self.take(match site {
            None => 0,
            Some(site) => (site as u64).wrapping_add(1),
        });
        self.take(callee);
    }

    /// Takes another port, or an allocation with its words.
    pub fn port(&mut self, port: u64, act: u64) {
        self.take(port);
        self.take(act);
    }
}

impl PortSink for Order {
    type Mark = u64;

    ghost stands_for = { λ s t h. IsPortHistory t h };

    ghost belongs = { λ m t h a. Unit {0} };

    ghost alike = { λ s u. Unit {0} };

    fn call(&mut self, site: Option<SiteId>, callee: ProcId) -> Result<u64, NoMemory> {
        let act = self.called;
        let site = match site {
            None => None,
            Some(site) => Some(site.number()),
        };
        Order::call(self, act, site, callee.number() as u64);
        Ok(act)
    }

    fn exit(&mut self, mark: &u64) {
        self.port(1, *mark);
    }

    fn redo(&mut self, mark: &u64) {
        self.port(2, *mark);
    }

    fn fail(&mut self, mark: &u64) {
        self.port(3, *mark);
    }

    fn excp(&mut self, mark: &u64) {
        self.port(4, *mark);
    }

    fn alloc(&mut self, words: u32) {
        self.port(5, words as u64);
    }

    ghost is_history = { λ s t h p. p };

    ghost alike_self = { λ s. tt };

    ghost alike_on = { λ s t u p q. tt };

    ghost stays = { λ m t h e a p b. tt };
}
