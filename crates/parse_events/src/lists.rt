// The lists of declarations and events.
ghost use Rattle.std.specs.Prelude.{◌≡◌, [], ◌∷◌, ◌++◌, length, IfOk, OnOk, OnErr, IfSome, IfNone};

use crate::event::{Declaration, Declarations, Event, Events};
use rb_base::Memory;
use std::alloc::Global;

impl Declarations {
    /// No declarations, which takes no memory.
    pub fn new(alloc: Global) -> Declarations
        ensures { result ≡ [] }
    {
        Declarations { alloc, items: None }
    }

    /// The declarations.
    pub fn as_slice(&self) -> &[Declaration]
        ensures { result.now ≡ self.now }
    {
        match &self.items {
            Some(items) => items.as_slice(),
            None => &[],
        }
    }

    /// The declarations, which are not copied.
    pub fn into_vec(self) -> Vec<Declaration>
        ensures { result.items ≡ self }
    {
        let Declarations { alloc, items } = self;
        match items {
            Some(items) => Box::into_inner(items),
            None => Vec::new(alloc),
        }
    }

    /// Appends a declaration; on want of memory it is dropped.
    pub fn push(&mut self, item: Declaration) -> Result<(), Memory>
        ensures ok { OnOk result (self.new ≡ self.old ++ item ∷ []) }
        ensures err { OnErr result (self.new ≡ self.old) }
    {
        match &mut self.items {
            Some(items) => items.push(item)?,
            None => {
                let mut items = Vec::new(self.alloc);
                items.push(item)?;
                self.items = Some(Box::new(self.alloc, items)?);
            }
        }
        Ok(())
    }
}

impl Events {
    /// No events, with room for as many as `count`; `Memory` where there is none.
    pub fn with_room(alloc: Global, count: usize) -> Result<Events, Memory>
        ensures { IfOk result (λ events. events ≡ []) }
    {
        Ok(Events {
            items: Vec::with_capacity(alloc, count)?,
        })
    }

    /// The events.
    pub fn as_slice(&self) -> &[Event]
        ensures { result.now ≡ self.now }
    {
        self.items.as_slice()
    }

    /// The events, which are not copied.
    pub fn into_vec(self) -> Vec<Event>
        ensures { result.items ≡ self }
    {
        let Events { items } = self;
        items
    }

    /// Appends an event; on want of memory it is dropped.
    #[inline]
    pub fn push(&mut self, item: Event) -> Result<(), Memory>
        ensures ok { OnOk result (self.new ≡ self.old ++ item ∷ []) }
        ensures err { OnErr result (self.new ≡ self.old) }
    {
        self.items.push(item)?;
        Ok(())
    }

    /// Takes the last event off.
    pub fn pop(&mut self) -> Option<Event>
        ensures some { IfSome result (λ item. self.old ≡ self.new ++ item ∷ []) }
        ensures none { IfNone result (self.old ≡ []) }
    {
        self.items.pop()
    }
}
