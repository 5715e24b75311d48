// Grants gathered in order, each once.
ghost use Rattle.std.specs.Prelude.{◌≡◌, [], IfOk, OnOk};
ghost use Rattle.std.specs.BTreeSet.{insert_key};
ghost use Rattle.std.specs.List.Sorted.{IsStrictlySortedBy};
ghost use Rattle.reg_priv.specs.Holders.{grant_cmp, place_of};

use reg_base::Privilege;
use reg_facts::Holder;
use reg_terms::privilege_code;
use std::alloc::{AllocError, Global};
use std::collections::BTreeMap;
use std::marker::Model;

/// Where a grant stands in the order: the privilege's code, the kind of the holder, the holder's
/// id.
type Place = (u32, u32, u32);

/// Grants by their places. Contracts see the list of them in order.
#[derive(Drop)]
pub struct Gathered {
    grants: BTreeMap<Place, (Privilege, Holder)>,
}

impl Model for Gathered {
    ghost use Rattle.std.specs.Prelude.{List};
    ghost use Rattle.std.specs.BTreeMap.{values};
    ghost use Rattle.reg_priv.specs.Filling.{AreInPlace};
    ghost use Rattle.reg_priv.specs.Grants.{Grant};

    ghost Value = { List Grant };

    ghost view = { λ g. values g.grants };

    ghost invariant = { λ g. AreInPlace g.grants.entries };
}

/// Where a grant stands in the order.
fn place_of(privilege: Privilege, holder: &Holder) -> Place
    ensures { result ≡ place_of (privilege, holder.now) }
{
    let code = u32::from(privilege_code(privilege));
    match holder {
        Holder::Everyone => (code, 0, 0),
        Holder::Person(person) => (code, 1, person.number()),
        Holder::Group(group) => (code, 2, group.number()),
    }
}

impl Gathered {
    /// No grants.
    pub fn new(alloc: Global) -> Gathered
        ensures { result ≡ [] }
    {
        Gathered {
            grants: BTreeMap::new(alloc),
        }
    }

    /// Puts a grant at its place.
    pub fn put(&mut self, privilege: Privilege, holder: &Holder) -> Result<(), AllocError>
        ensures { OnOk result (self.new ≡ insert_key grant_cmp self.old (privilege, holder.now)) }
    {
        self.grants
            .insert(place_of(privilege, holder), (privilege, *holder))?;
        Ok(())
    }

    /// The grants in order.
    pub fn list(&self, alloc: Global) -> Result<Vec<(Privilege, Holder)>, AllocError>
        ensures all { IfOk result (λ found. found.items ≡ self.now) }
        ensures sorted { IfOk result (λ found. IsStrictlySortedBy grant_cmp found.items) }
    {
        let mut found = Vec::new(alloc);
        for grant in self.grants.values() {
            found.push(*grant)?;
        }
        Ok(found)
    }
}
