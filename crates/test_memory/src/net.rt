// Nets in memory.
ghost use Rattle.std.specs.Prelude.{◌≡◌, [], ◌∷◌, Some, None, All, IsErr, IsOk, IsSome, IfOk, IfSome, IfNone, OnOk, OnErr};
ghost use Rattle.std.specs.Vec.Iter.{into_iter_items};
ghost use Rattle.md_base.specs.Outside.{HasCause, one_more};
ghost use Rattle.md_base.specs.Nets.{TakesFirst, NoneComing, connection_of, with_served};
ghost use Rattle.test_memory.specs.Memory.{IsFreshLink, connections_of, IsFreshFailingLink, failing_connections_of, FailsNextOf, IsAfterNetCall};

use crate::failures::is_due;
use crate::{MemLink, SureLink};
use md_base::{Failed, Net, NoMemory};
use std::marker::Model;
use std::vec::IntoIter;

/// A net in memory of which chosen calls fail: the connections to come and those that were served, in order.
#[derive(Drop)]
pub struct MemNet {
    coming: IntoIter<MemLink>,
    served: Vec<MemLink>,
    port: Option<u16>,
    fail: Vec<u64>,
    calls: u64,
    faults: u64,
}

impl Model for MemNet {
    ghost use Rattle.std.specs.Prelude.{All};
    ghost use Rattle.std.specs.Vec.Iter.{into_iter_items};
    ghost use Rattle.test_memory.specs.Memory.{FailingNet, IsFreshFailingLink};

    ghost Value = { FailingNet };

    ghost view = { λ n. record {
      coming = into_iter_items n.coming;
      served = n.served.items;
      port = n.port;
      fail = n.fail.items;
      calls = n.calls;
      faults = n.faults;
    } };

    ghost invariant = { λ n. All IsFreshFailingLink (into_iter_items n.coming) };
}

impl MemNet {
    /// A net to which these connections will come, each as it was made, and which fails at the calls of `bind` and
    /// `next` whose numbers, counted from 1, are in `fail`.
    pub fn new(coming: Vec<MemLink>, fail: Vec<u64>) -> MemNet
        requires { All IsFreshFailingLink coming.items }
        ensures { result ≡ record { coming = coming.items; served = []; port = None; fail = fail.items; calls = 0; faults = 0 } }
    {
        let served = Vec::new(*coming.allocator());
        MemNet {
            coming: coming.into_iter(),
            served,
            port: None,
            fail,
            calls: 0,
            faults: 0,
        }
    }

    /// The connections that were served, as they stood then.
    pub fn served(&self) -> &[MemLink]
        ensures { result.now ≡ self.now.served }
    {
        self.served.as_slice()
    }

    /// The port at which it listens, where it listens.
    pub fn port(&self) -> Option<u16>
        ensures { result ≡ self.now.port }
    {
        self.port
    }
}

impl Net for MemNet {
    type Conn = MemLink;

    ghost connections = { λ n. Some (failing_connections_of n) };

    ghost faults = { λ n. n.faults };

    ghost listens_at = { λ n. n.port };

    fn bind(&mut self, port: u16) -> Result<(), Failed>
        ensures bound { OnOk result (self.new.port ≡ Some port) }
        ensures stays { OnErr result (self.new.port ≡ self.old.port) }
        ensures kept { Some (failing_connections_of self.new) ≡ Some (failing_connections_of self.old) }
        ensures cause { HasCause Failed.Device self.old.faults self.new.faults result }

        // It fails where its number is in `fail`, and there alone.
        ensures due { FailsNextOf self.old → result ≡ Err Failed.Device }
        ensures well { IsErr result → FailsNextOf self.old }
        ensures counted { IsAfterNetCall self.old self.new }
    {
        if is_due(&self.fail, &mut self.calls) {
            self.faults = self.faults.saturating_add(1);
            return Err(Failed::Device);
        }
        self.port = Some(port);
        Ok(())
    }

    fn next(&mut self) -> Result<Option<MemLink>, Failed>
        requires { IsSome self.old.port }
        ensures first { IfOk result (λ found. IfSome found (λ link.
            TakesFirst (Some (failing_connections_of self.old)) (Some (failing_connections_of self.new)) (Some link.stream) (Some link.written))) }
        ensures no_faults { IfOk result (λ found. IfSome found (λ link. (link.read_faults ≡ 0) × (link.write_faults ≡ 0))) }
        ensures none { IfOk result (λ found. IfNone found (NoneComing (Some (failing_connections_of self.old)))) }
        ensures none_taken { IfOk result (λ found. IfNone found (Some (failing_connections_of self.new) ≡ Some (failing_connections_of self.old))) }
        ensures kept { OnErr result (Some (failing_connections_of self.new) ≡ Some (failing_connections_of self.old)) }
        ensures stays { self.new.port ≡ self.old.port }
        ensures cause { HasCause Failed.Device self.old.faults self.new.faults result }

        // It fails where its number is in `fail`, and there alone.
        ensures due { FailsNextOf self.old → result ≡ Err Failed.Device }
        ensures well { IsErr result → FailsNextOf self.old }
        ensures counted { IsAfterNetCall self.old self.new }
    {
        if is_due(&self.fail, &mut self.calls) {
            self.faults = self.faults.saturating_add(1);
            return Err(Failed::Device);
        }
        let Some(link) = first_failing_of(&mut self.coming) else {
            return Ok(None);
        };
        Ok(Some(link))
    }

    fn done(&mut self, link: MemLink) -> Result<(), NoMemory>
        ensures served { OnOk result (Some (failing_connections_of self.new) ≡ with_served (connection_of (Some link.stream)
            (Some link.written) link.read_faults link.write_faults) (Some (failing_connections_of self.old))) }
        ensures kept { OnErr result (Some (failing_connections_of self.new) ≡ Some (failing_connections_of self.old)) }
        ensures stays { self.new.port ≡ self.old.port }
        ensures count { self.new.faults ≡ self.old.faults }

        // It isn't among the calls that are counted.
        ensures uncounted { (self.new.calls ≡ self.old.calls) × (self.new.fail ≡ self.old.fail) }
    {
        self.served.push(link)?;
        Ok(())
    }
}

/// Takes the first of the connections to come.
fn first_failing_of(coming: &mut IntoIter<MemLink>) -> Option<MemLink>
    requires { All IsFreshFailingLink (into_iter_items coming.old) }
    ensures first { IfSome result (λ link. into_iter_items coming.old ≡ link ∷ into_iter_items coming.new) }
    ensures fresh { IfSome result IsFreshFailingLink }
    ensures stays { All IsFreshFailingLink (into_iter_items coming.new) }
    ensures none { IfNone result (into_iter_items coming.old ≡ []) }
    ensures none_left { IfNone result (into_iter_items coming.new ≡ []) }
{
    coming.next()
}

/// A net in memory that never fails: the connections to come and those that were served, in order.
#[derive(Drop)]
pub struct SureNet {
    coming: IntoIter<SureLink>,
    served: Vec<SureLink>,
    port: Option<u16>,
}

impl Model for SureNet {
    ghost use Rattle.std.specs.Prelude.{All};
    ghost use Rattle.std.specs.Vec.Iter.{into_iter_items};
    ghost use Rattle.test_memory.specs.Memory.{WholeNet, IsFreshLink};

    ghost Value = { WholeNet };

    ghost view = { λ n. record { coming = into_iter_items n.coming; served = n.served.items; port = n.port } };

    ghost invariant = { λ n. All IsFreshLink (into_iter_items n.coming) };
}

impl SureNet {
    /// A net to which these connections will come, each as it was made.
    pub fn new(coming: Vec<SureLink>) -> SureNet
        requires { All IsFreshLink coming.items }
        ensures { result ≡ record { coming = coming.items; served = []; port = None } }
    {
        let served = Vec::new(*coming.allocator());
        SureNet {
            coming: coming.into_iter(),
            served,
            port: None,
        }
    }

    /// The connections that were served, as they stood then.
    pub fn served(&self) -> &[SureLink]
        ensures { result.now ≡ self.now.served }
    {
        self.served.as_slice()
    }

    /// The port at which it listens, where it listens.
    pub fn port(&self) -> Option<u16>
        ensures { result ≡ self.now.port }
    {
        self.port
    }
}

impl Net for SureNet {
    type Conn = SureLink;

    ghost connections = { λ n. Some (connections_of n) };

    ghost faults = { λ _. 0 };

    ghost listens_at = { λ n. n.port };

    fn bind(&mut self, port: u16) -> Result<(), Failed>
        ensures bound { OnOk result (self.new.port ≡ Some port) }
        ensures stays { OnErr result (self.new.port ≡ self.old.port) }
        ensures kept { Some (connections_of self.new) ≡ Some (connections_of self.old) }
        ensures cause { HasCause Failed.Device 0 0 result }

        // It never fails.
        ensures well { IsOk result }
    {
        self.port = Some(port);
        Ok(())
    }

    fn next(&mut self) -> Result<Option<SureLink>, Failed>
        requires { IsSome self.old.port }
        ensures first { IfOk result (λ found. IfSome found (λ link.
            TakesFirst (Some (connections_of self.old)) (Some (connections_of self.new)) (Some link.stream) (Some link.written))) }
        ensures none { IfOk result (λ found. IfNone found (NoneComing (Some (connections_of self.old)))) }
        ensures none_taken { IfOk result (λ found. IfNone found (Some (connections_of self.new) ≡ Some (connections_of self.old))) }
        ensures kept { OnErr result (Some (connections_of self.new) ≡ Some (connections_of self.old)) }
        ensures stays { self.new.port ≡ self.old.port }
        ensures cause { HasCause Failed.Device 0 0 result }

        // It never fails.
        ensures well { IsOk result }
    {
        let Some(link) = first_of(&mut self.coming) else {
            return Ok(None);
        };
        Ok(Some(link))
    }

    fn done(&mut self, link: SureLink) -> Result<(), NoMemory> {
        self.served.push(link)?;
        Ok(())
    }
}

/// Takes the first of the connections to come.
fn first_of(coming: &mut IntoIter<SureLink>) -> Option<SureLink>
    requires { All IsFreshLink (into_iter_items coming.old) }
    ensures first { IfSome result (λ link. into_iter_items coming.old ≡ link ∷ into_iter_items coming.new) }
    ensures fresh { IfSome result IsFreshLink }
    ensures stays { All IsFreshLink (into_iter_items coming.new) }
    ensures none { IfNone result (into_iter_items coming.old ≡ []) }
    ensures none_left { IfNone result (into_iter_items coming.new ≡ []) }
{
    coming.next()
}
