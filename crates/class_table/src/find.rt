// Classes and methods found in an image.
ghost use Rattle.std.specs.Prelude.{◌≡◌, ◌++◌, OnOk, OnErr};
ghost use Rattle.class_table.specs.Valid.{SuperclassesFirst};
ghost use Rattle.class_table.specs.Finding.{named_in, method_in, only_live, above, on_chain_at, found_on_chain, class_class, found_by_lookup, tree_in};

use crate::image::Image;
use crate::record::{ClassId, ClassIds, MethodSlot};
use crate::tables::MethodKey;
use crate::tree::classes_below;
use rb_base::{Memory, NameId};

impl Image {
    /// The first live class of a name.
    pub fn class_named(&self, name: NameId) -> Option<ClassId>
        ensures { result ≡ named_in self.now.classes self.now.class_order name }
    {
        self.by_name.find(&self.classes, &self.class_order, name)
    }

    /// The first live method of a class, a side and a selector.
    pub(crate) fn method_of(&self, key: MethodKey) -> Option<MethodSlot>
        ensures { result ≡ method_in self.now.methods self.now.method_order key }
    {
        self.by_key.find(&self.methods, &self.method_order, key)
    }

    /// The method of a class itself on a side for a selector, if it has one.
    pub fn own_method(&self, class: ClassId, meta: bool, selector: NameId) -> Option<MethodSlot>
        ensures { result ≡ method_in self.now.methods self.now.method_order (record { class = class; meta = meta; selector = selector }) }
    {
        self.method_of(MethodKey::new(class, meta, selector))
    }

    /// Makes the tables by which classes and methods are found at once, if they are not ready. Each change of a class or a
    /// method is entered in them. They are no longer ready where two live classes come to have one name, or two live methods
    /// one key, or there is no room for an entry; then classes or methods are searched for in the order of the live ones.
    pub fn reindex(&mut self) -> Result<(), Memory>
        ensures { self.new ≡ self.old }
    {
        self.by_name
            .fill(self.alloc, &self.classes, self.class_order.items())?;
        self.by_key
            .fill(self.alloc, &self.methods, self.method_order.items())
    }

    /// The `n`-th class on the chain of a class: the class itself for 0, then its superclass, and so on. `None` where the
    /// class is not live or its chain has at most `n` classes.
    pub fn chain_at(&self, class: ClassId, n: usize) -> Option<ClassId>
        ensures { result ≡ on_chain_at self.now.classes self.now.class_order class n }
    {
        let mut at = self.only_live(class);
        let mut left = n;
        while left > 0 {
            at = self.above(at?);
            left -= 1;
        }
        at
    }

    /// The method that a message with a selector runs in a class, on the instance side or the class side: the first one
    /// on the chain, and on the class side then what the class `Class` understands. `None` also where the class is not
    /// live.
    pub fn lookup(&self, class: ClassId, meta: bool, selector: NameId) -> Option<MethodSlot>
        ensures { result ≡ found_by_lookup self.now class meta selector }
    {
        let class = self.only_live(class)?;
        let found = self.find_up(class, meta, selector);
        if found.is_some() || !meta {
            return found;
        }
        let class = self.class_class()?;
        self.find_up(class, false, selector)
    }

    /// Appends the class and all below it, in the order of the live classes.
    pub fn tree_of(&self, class: ClassId, out: &mut ClassIds) -> Result<(), Memory>
        requires { SuperclassesFirst self.now.classes self.now.class_order }
        ensures ok { OnOk result (out.new ≡ out.old ++ tree_in self.now.classes self.now.class_order class) }
        ensures err { OnErr result (out.new ≡ out.old) }
    {
        let order = self.class_order.items();
        let found = classes_below(self.alloc, &self.classes, order, class)?;
        out.push_slice(found.as_slice())
    }

    /// The slot, if it is that of a live class.
    fn only_live(&self, class: ClassId) -> Option<ClassId>
        ensures { result ≡ only_live self.now.class_order class }
    {
        if self.class_order.is_live(class) {
            Some(class)
        } else {
            None
        }
    }

    /// The live superclass of a class.
    fn above(&self, class: ClassId) -> Option<ClassId>
        ensures { result ≡ above self.now.classes self.now.class_order class }
    {
        let rec = self.classes.get(class.0)?;
        self.only_live(rec.superclass?)
    }

    /// The class `Class`, if there is one.
    fn class_class(&self) -> Option<ClassId>
        ensures { result ≡ class_class self.now }
    {
        self.class_named(self.names.find(b"Class")?)
    }

    /// The first method for a selector on a side of the chain of a live class.
    fn find_up(&self, class: ClassId, meta: bool, selector: NameId) -> Option<MethodSlot>
        ensures { result ≡ found_on_chain self.now class meta selector }
    {
        let mut at = self.only_live(class);
        let mut left = self.class_order.items().len();
        while left > 0 {
            let class = at?;
            let found = self.method_of(MethodKey::new(class, meta, selector));
            if found.is_some() {
                return found;
            }
            at = self.above(class);
            left -= 1;
        }
        None
    }
}
