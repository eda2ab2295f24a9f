// A set of lent names.
ghost use Rattle.std.specs.Prelude.{◌≡◌, [], ◌∷◌, List, not, IfOk};
ghost use Rattle.mdc_ast.specs.declared.name.Name.{Name};
ghost use Rattle.mdc_ast.specs.Definitions.{is_among};
ghost use Rattle.binder.specs.Knowing.{Knows};

use mdc_ast::Name;
use mdc_values::Memory;
use std::alloc::Global;
use std::collections::HashSet;

/// Names, to be asked whether one is among them in one step.
#[derive(Drop)]
pub struct KnownNames<'a> {
    names: HashSet<&'a [u8]>,
}

impl<'a> KnownNames<'a> {
    /// No name. It takes no memory.
    pub fn new(alloc: Global) -> KnownNames<'a>
        ensures { Knows result [] }
    {
        KnownNames {
            names: HashSet::new(alloc),
        }
    }

    /// These names.
    pub fn of(alloc: Global, names: &'a [Name]) -> Result<KnownNames<'a>, Memory>
        ensures { IfOk result (λ set. Knows set names.now) }
    {
        let mut known = KnownNames::new(alloc);
        for name in names {
            known.add(name)?;
        }
        Ok(known)
    }

    /// Whether a name is among them.
    pub fn has(&self, name: &Name) -> bool
        ensures { (known : List Name) → Knows self.now known → result ≡ is_among name.now known }
    {
        self.names.contains(name.0.bytes())
    }

    /// Puts a name among them, and says whether it wasn't there.
    pub fn add(&mut self, name: &'a Name) -> Result<bool, Memory>
        ensures new { IfOk result (λ new. (known : List Name) → Knows self.old known → new ≡ not (is_among name.now known)) }
        ensures known { IfOk result (λ new. (known : List Name) → Knows self.old known → Knows self.new (name.now ∷ known)) }
    {
        Ok(self.names.insert(name.0.bytes())?)
    }
}
