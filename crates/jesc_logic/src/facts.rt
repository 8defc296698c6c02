//! The facts of a path, which share their beginning with the facts of other paths.

ghost use Rattle.std.specs.Prelude.{◌≡◌, [], ◌∷◌, ◌++◌, IfOk, MatchOption};

use crate::fact::Fact;
use jesc_text::OutOfMemory;
use std::alloc::Global;
use std::marker::Model;
use std::rc::Rc;

/// A list of facts, which contracts see as the list. It keeps its last fact beside the list of those before it, which
/// longer lists share: the facts of all conditions of a path take memory in proportion to its steps.
#[cycle(facts)]
pub struct Facts {
    last: Link,
}

#[cycle(facts)]
#[derive(Drop)]
enum Link {
    Start,
    /// The facts before, and the last one.
    After(Rc<(Facts, Fact)>),
}

impl Drop for Facts {
    /// Lets go of one fact after the other, up to the first that other lists share.
    fn drop(mut self) {
        loop {
            let Facts { last } = self;
            match last {
                Link::Start => return,
                Link::After(step) => match Rc::into_inner(step) {
                    None => return,
                    Some((before, _)) => self = before,
                },
            }
        }
    }
}

impl Model for Facts {
    ghost use Rattle.std.specs.Prelude.{List, length};
    ghost use Rattle.jesc_logic.specs.declared.fact.Fact.{Fact};
    ghost use Rattle.jesc_logic.specs.contracts.fact.Fact as fact;
    ghost use Rattle.std.specs.Coded.{coded_list};

    ghost Value = { List Fact };

    ghost coded = { coded_list fact.the_row.coded };

    ghost use Rattle.jesc_logic.specs.Chains.{facts_of};

    ghost view = { λ facts. facts_of facts.last };

    ghost size = { length };

    ghost use Rattle.std.proofs.Common.{arith, length-append};

    ghost size_decreases = { λ a h. Prim.grind (arith, length-append) };
}

impl Facts {
    /// No facts. Takes no memory.
    pub fn new() -> Facts
        ensures { result ≡ [] }
    {
        Facts { last: Link::Start }
    }

    /// The same facts. Takes no memory, and answers `OutOfMemory` only where too many lists share them.
    pub fn share(&self) -> Result<Facts, OutOfMemory>
        ensures { IfOk result (λ facts. facts ≡ self.now) }
    {
        match &self.last {
            Link::Start => Ok(Facts { last: Link::Start }),
            Link::After(step) => match step.clone() {
                Ok(step) => Ok(Facts {
                    last: Link::After(step),
                }),
                Err(_) => Err(OutOfMemory),
            },
        }
    }

    /// These facts and one more, in memory for one fact.
    pub fn with(self, alloc: Global, fact: Fact) -> Result<Facts, OutOfMemory>
        ensures { IfOk result (λ facts. facts ≡ self ++ fact ∷ []) }
    {
        match Rc::new(alloc, (self, fact)) {
            Ok(step) => Ok(Facts {
                last: Link::After(step),
            }),
            Err(_) => Err(OutOfMemory),
        }
    }

    /// The last fact and those before it, if there is one. Takes no memory.
    pub fn split_last(&self) -> Option<(&Facts, &Fact)>
        ensures { MatchOption result (self.now ≡ []) (λ parts. self.now ≡ parts.0.now ++ parts.1.now ∷ []) }
    {
        match &self.last {
            Link::Start => None,
            Link::After(step) => Some((&step.0, &step.1)),
        }
    }
}
