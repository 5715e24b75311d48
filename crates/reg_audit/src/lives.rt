// When objects were made and when they went.
ghost use Rattle.std.specs.Prelude.{◌≡◌, OnOk, Some, None, map, option_map, if◌then◌else◌};
ghost use Rattle.reg_terms.specs.Kinds.{same_object};
ghost use Rattle.reg_terms.specs.declared.kinds.Object.{Object};
ghost use Rattle.reg_audit.specs.Kept.{life_in};
ghost use Rattle.reg_audit.specs.Lives.{first_life, begun, ended};

use crate::Gone;
use reg_base::{FolderId, Moment};
use reg_terms::Object;
use std::alloc::{AllocError, Global};
use std::collections::BTreeMap;

/// When each object was made and, if it went, when: two ordered maps by object, since most of what
/// was made stands. The root folder, which was there before all steps, isn't in them.
#[derive(Drop)]
pub(crate) struct Lives {
    made: BTreeMap<Object, Moment>,
    gone: BTreeMap<Object, Moment>,
}

/// The life of an object before all steps.
fn first_life(object: &Object) -> Option<(Moment, Option<Moment>)>
    ensures { result ≡ first_life object.now }
{
    if Object::Folder(FolderId::new(0)).is(object) {
        Some((Moment::start(), None))
    } else {
        None
    }
}

impl Lives {
    /// Nothing was made but the root. Takes no memory.
    pub(crate) fn start(alloc: Global) -> Lives
        ensures { (o : Object) → life_in result o ≡ first_life o }
    {
        Lives {
            made: BTreeMap::new(alloc),
            gone: BTreeMap::new(alloc),
        }
    }

    /// When the object was made and when it went, if it was ever made. Takes no memory.
    pub(crate) fn life(&self, object: &Object) -> Option<(Moment, Option<Moment>)>
        ensures { result ≡ life_in self.now object.now }
    {
        match self.made.get(object) {
            Some(made) => Some((*made, self.gone.get(object).copied())),
            None => first_life(object),
        }
    }

    /// When the object was made, if it was. Takes no memory.
    fn made(&self, object: &Object) -> Option<Moment>
        ensures { result ≡ option_map (λ l. l.0) (life_in self.now object.now) }
    {
        self.life(object).map(|life| life.0)
    }

    /// The object is made at a moment.
    fn begin(&mut self, object: Object, at: Moment) -> Result<(), AllocError>
        ensures { OnOk result ((o : Object)
            → life_in self.new o ≡ (if same_object object o then Some (at, None)
            else life_in self.old o)) }
    {
        self.gone.remove(&object);
        self.made.insert(object, at)?;
        Ok(())
    }

    /// The object goes at a moment.
    fn end(&mut self, object: Object, at: Moment) -> Result<(), AllocError>
        ensures { OnOk result ((o : Object)
            → life_in self.new o ≡ (if same_object object o
            then option_map (λ l. (l.0, Some at)) (life_in self.old o) else life_in self.old o)) }
    {
        if let Some(made) = self.made(&object) {
            // The root stands in no map before it goes.
            self.made.insert(object, made)?;
            self.gone.insert(object, at)?;
        }
        Ok(())
    }

    /// Objects are made at a moment.
    pub(crate) fn begin_all(&mut self, made: &[Object], at: Moment) -> Result<(), AllocError>
        ensures { OnOk result ((o : Object)
            → life_in self.new o ≡ begun at made.now o (life_in self.old o)) }
    {
        for object in made {
            self.begin(*object, at)?;
        }
        Ok(())
    }

    /// Objects go at a moment.
    pub(crate) fn end_all(&mut self, gone: &[Gone], at: Moment) -> Result<(), AllocError>
        ensures { OnOk result ((o : Object)
            → life_in self.new o ≡ ended at (map (λ g. g.object) gone.now) o (life_in self.old o)) }
    {
        for one in gone {
            self.end(one.object, at)?;
        }
        Ok(())
    }
}
