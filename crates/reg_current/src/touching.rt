// The objects whose grants events may change, gathered one event after another.
ghost use Rattle.std.specs.Prelude.{◌≡◌, true, OnOk};
ghost use Rattle.reg_terms.specs.declared.kinds.Object.{Object};
ghost use Rattle.reg_facts.specs.Events.{happened};
ghost use Rattle.reg_facts.specs.Lists.{Lists};
ghost use Rattle.reg_facts.specs.Suiting.{Suits};
ghost use Rattle.reg_priv.specs.Touched.{is_listed, KnowsTouched};

use reg_facts::{Event, Facts};
use reg_priv::{law_untouched, touched_objects};
use reg_terms::Object;
use std::alloc::{AllocError, Global};

/// Whether the last of some objects is this one.
#[tactic(auto, using(crate::proofs::Touches::last_listed))]
fn is_last(objects: &[Object], object: &Object) -> bool
    ensures { result ≡ true → is_listed object.now objects.now ≡ true }
{
    match objects.last() {
        Some(last) => last.is(object),
        None => false,
    }
}

/// Puts an object behind others, unless it is the last of them.
fn put(object: Object, touched: &mut Vec<Object>) -> Result<(), AllocError>
    ensures kept { OnOk result ((o : Object) → is_listed o touched.old.items ≡ true
        → is_listed o touched.new.items ≡ true) }
    ensures put { OnOk result (is_listed object touched.new.items ≡ true) }
{
    if is_last(touched, &object) {
        return Ok(());
    }
    touched.push(object)?;
    Ok(())
}

/// Puts objects behind others.
fn put_all(objects: &[Object], touched: &mut Vec<Object>) -> Result<(), AllocError>
    ensures kept { OnOk result ((o : Object) → is_listed o touched.old.items ≡ true
        → is_listed o touched.new.items ≡ true) }
    ensures put { OnOk result ((o : Object) → is_listed o objects.now ≡ true
        → is_listed o touched.new.items ≡ true) }
{
    for object in objects {
        put(*object, touched)?;
    }
    Ok(())
}

/// Puts the objects whose grants an event may change behind those of the events before it, by the
/// facts before it. An event that changes no grants costs nothing.
pub fn put_touched(
    alloc: Global,
    facts: &Facts,
    event: &Event,
    touched: &mut Vec<Object>,
) -> Result<(), AllocError>
    requires { Suits event.now facts.now }
    ensures { OnOk result ((f : Lists) → KnowsTouched f facts.now touched.old.items
        → KnowsTouched f (happened event.now facts.now) touched.new.items) }
{
    law_untouched(facts);
    let objects = touched_objects(alloc, facts, event)?;
    put_all(&objects, touched)
}
