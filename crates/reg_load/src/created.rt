// The numbers of created groups by their names.
ghost use Rattle.std.specs.Prelude.{◌≡◌, ◌≤◌, ◌^◌, List, ℕ, None, Some, IfOk, OnOk, if◌then◌else◌};
ghost use Rattle.std.specs.Option.{option_or};
ghost use Rattle.std.specs.Str.{bytes_eq};
ghost use Rattle.reg_load.specs.Finding.{number_of};
ghost use Rattle.reg_load.specs.LoadChecks.{created_id};
ghost use Rattle.reg_load.specs.Loading.{AreNames};

use reg_base::Name;
use std::alloc::{AllocError, Global};
use std::collections::HashMap;

/// The number of each created name, found by the name's hash. It borrows the names.
#[derive(Drop)]
pub(crate) struct CreatedNames<'a> {
    numbers: HashMap<&'a str, u64>,
}

impl<'a> CreatedNames<'a> {
    /// No name. It takes no memory.
    #[tactic(auto, unfolding(crate::specs::Finding::number_of))]
    pub(crate) fn new(alloc: Global) -> CreatedNames<'a>
        ensures { (text : List ℕ) → number_of result text ≡ None }
    {
        CreatedNames {
            numbers: HashMap::new(alloc),
        }
    }

    /// The number of this name.
    #[tactic(auto, unfolding(crate::specs::Finding::number_of))]
    pub(crate) fn number(&self, name: &str) -> Option<u64>
        ensures { result ≡ number_of self.now name.now }
    {
        self.numbers.get(name).copied()
    }

    /// Gives a name this number.
    pub(crate) fn insert(&mut self, name: &'a str, number: u64) -> Result<(), AllocError>
        ensures { OnOk result ((other : List ℕ)
            → number_of self.new other
            ≡ (if bytes_eq name.now other then Some number else number_of self.old other)) }
    {
        self.numbers.insert(name, number)?;
        Ok(())
    }

    /// Gives a name this number, if it has none.
    fn add(&mut self, name: &'a str, number: u64) -> Result<(), AllocError>
        ensures { OnOk result ((other : List ℕ)
            → number_of self.new other
            ≡ option_or (number_of self.old other) (if bytes_eq name.now other then Some number
            else None)) }
    {
        if self.number(name).is_some() {
            return Ok(());
        }
        self.insert(name, number)
    }

    /// Names numbered one after another, each as where it comes first.
    pub(crate) fn of(
        alloc: Global,
        first: u64,
        created: &'a [Name],
    ) -> Result<CreatedNames<'a>, AllocError>
        requires { first ≤ 2 ^ 32 }
        ensures { IfOk result (λ names. (text : List ℕ)
            → number_of names text ≡ created_id created.now first text) }
    {
        let mut names = CreatedNames::new(alloc);
        let mut next = first;
        for name in created {
            names.add(name.as_str(), next)?;
            next += 1;
        }
        Ok(names)
    }
}

/// A law, which does nothing: names are names.
pub(crate) fn law_names(created: &[Name])
    ensures { AreNames created.now }
{
    for name in created {
        let _ = name.bytes();
    }
}
