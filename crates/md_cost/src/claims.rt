// Which keys are claimed where a walk down the tree of contexts is.
ghost use Rattle.std.specs.Prelude.{◌≡◌, ◌<◌, IfSome, length};
ghost use Rattle.md_cost.specs.Walking.{claimed, is_free, with_key};

use md_base::NoMemory;
use std::alloc::Global;

/// What a walk knows of the keys of one kind: those that the contexts have where it is, and which of the contexts that
/// it has entered are the outermost with theirs.
#[derive(Drop)]
pub struct Claims {
    pub active: Vec<bool>,
    pub outermost: Vec<bool>,
}

impl Claims {
    ghost use Rattle.std.specs.Prelude.{◌≡◌, ◌<◌, IfOk, IfSome, false, length, replicate, slice_set};
    ghost use Rattle.md_cost.specs.Walking.{claimed, is_free, marked_by, with_key, without_key};

    /// Before a walk over so many contexts, whose keys are below `count`.
    pub fn none(alloc: Global, count: usize, nodes: usize) -> Result<Claims, NoMemory>
        ensures active { IfOk result (λ claims. claims.active.items ≡ replicate count false) }
        ensures outermost { IfOk result (λ claims. claims.outermost.items ≡ replicate nodes false) }
    {
        Ok(Claims {
            active: vec![in alloc; false; count]?,
            outermost: vec![in alloc; false; nodes]?,
        })
    }

    /// Enters a context with this key.
    pub fn enter(&mut self, node: u32, key: Option<u32>)
        requires node { node < length self.old.outermost.items }
        requires key { IfSome key (λ q. q < length self.old.active.items) }
        ensures active { self.new.active.items ≡ with_key self.old.active.items (claimed self.old.active.items key) }
        ensures outermost { self.new.outermost.items ≡ slice_set self.old.outermost.items node (is_free self.old.active.items key) }
    {
        self.outermost[node as usize] = claim(&mut self.active, key);
    }

    /// Leaves a context with this key.
    pub fn leave(&mut self, node: u32, key: Option<u32>)
        requires node { node < length self.old.outermost.items }
        requires key { IfSome key (λ q. q < length self.old.active.items) }
        ensures active { self.new.active.items ≡ without_key self.old.active.items (marked_by self.old.outermost.items node key) }
        ensures outermost { self.new.outermost.items ≡ self.old.outermost.items }
    {
        if let Some(key) = key {
            if self.outermost[node as usize] {
                self.active[key as usize] = false;
            }
        }
    }
}

/// Claims a key that is free. Answers whether there was one.
fn claim(active: &mut [bool], key: Option<u32>) -> bool
    requires { IfSome key (λ q. q < length active.old) }
    ensures free { result ≡ is_free active.old key }
    ensures active { active.new ≡ with_key active.old (claimed active.old key) }
{
    let Some(key) = key else {
        return false;
    };
    if active[key as usize] {
        return false;
    }
    active[key as usize] = true;
    true
}
