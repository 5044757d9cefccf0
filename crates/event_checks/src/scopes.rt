// The declarations that are open at a place.
ghost use Rattle.std.specs.Prelude.{◌≡◌, [], ◌∷◌, ◌++◌, List, IfOk, if◌then◌else◌};
ghost use Rattle.std.specs.Str.{bytes_eq};
ghost use Rattle.grammar_model.specs.Terminal.{Text};
ghost use Rattle.grammar_model.specs.Checks.{Known, known_of, is_fixed};
ghost use Rattle.event_checks.specs.Lists.{declared};
ghost use Rattle.event_checks.specs.Scopes.{fixed_at, known_as, IsScopes, left};

use indexmap::IndexMap;
use parse_events::Declaration;
use rb_base::Memory;
use std::alloc::Global;

/// What was done to the table of names.
#[derive(Drop)]
enum Change {
    /// A scope was entered.
    Entered,
    /// A name was declared, and before that it was fixed or not.
    Declared { name: Vec<u8>, fixed: bool },
}

/// The declarations that are open: for each declared name, whether the innermost declaration fixes it, and what is to
/// be undone where a scope ends.
#[derive(Drop)]
pub(crate) struct Scopes {
    fixed: IndexMap<Vec<u8>, bool>,
    changes: Vec<Change>,
}

/// Lets a name be fixed or not, and gives what it was.
fn put(
    alloc: Global,
    table: &mut IndexMap<Vec<u8>, bool>,
    name: &[u8],
    fixed: bool,
) -> Result<bool, Memory>
    ensures before { IfOk result (λ before. before ≡ fixed_at table.old name.now) }
    ensures after { IfOk result (λ _. (n : Text) → fixed_at table.new n ≡ (if bytes_eq n name.now then fixed else fixed_at table.old n)) }
{
    let key = Vec::from_slice(alloc, name)?;
    let before = table.insert(key, fixed)?;
    Ok(before.unwrap_or(false))
}

impl Scopes {
    /// No declarations.
    pub(crate) fn new(alloc: Global) -> Scopes
        ensures { IsScopes result [] [] }
    {
        Scopes {
            fixed: IndexMap::new(alloc),
            changes: Vec::new(alloc),
        }
    }

    /// Whether the innermost declaration of the name fixes it.
    pub(crate) fn is_fixed(&self, name: &[u8]) -> bool
        ensures { result ≡ fixed_at self.now.fixed name.now }
    {
        match self.fixed.get(name) {
            Some(fixed) => *fixed,
            None => false,
        }
    }

    /// Declares a name in the innermost scope.
    fn declare(&mut self, alloc: Global, name: &[u8], fixed: bool) -> Result<(), Memory>
        ensures { IfOk result (λ _. (ks : List Known) (outer : List (List Known)) → IsScopes self.old ks outer →
            IsScopes self.new (record { name = name.now; fixed = fixed } ∷ ks) outer) }
    {
        let before = put(alloc, &mut self.fixed, name, fixed)?;
        let name = Vec::from_slice(alloc, name)?;
        self.changes.push(Change::Declared {
            name,
            fixed: before,
        })?;
        Ok(())
    }

    /// Declares the names in the innermost scope, the last one first.
    fn declare_all(
        &mut self,
        alloc: Global,
        declarations: &[Declaration],
        fixed: bool,
    ) -> Result<(), Memory>
        ensures { IfOk result (λ _. (ks : List Known) (outer : List (List Known)) → IsScopes self.old ks outer →
            IsScopes self.new (known_as fixed (declared declarations.now) ++ ks) outer) }
    {
        let mut count = declarations.len();
        while count > 0 {
            count -= 1;
            self.declare(alloc, declarations[count].name.as_slice(), fixed)?;
        }
        Ok(())
    }

    /// Declares arguments or parameters, which are fixed, and temporaries in the innermost scope.
    pub(crate) fn declare_list(
        &mut self,
        alloc: Global,
        parameters: &[Declaration],
        temporaries: &[Declaration],
    ) -> Result<(), Memory>
        ensures { IfOk result (λ _. (ks : List Known) (outer : List (List Known)) → IsScopes self.old ks outer →
            IsScopes self.new (known_of (declared parameters.now) (declared temporaries.now) ++ ks) outer) }
    {
        self.declare_all(alloc, temporaries, false)?;
        self.declare_all(alloc, parameters, true)
    }

    /// Enters a scope of these declarations.
    pub(crate) fn enter(
        &mut self,
        alloc: Global,
        parameters: &[Declaration],
        temporaries: &[Declaration],
    ) -> Result<(), Memory>
        ensures { IfOk result (λ _. (ks : List Known) (outer : List (List Known)) → IsScopes self.old ks outer →
            IsScopes self.new (known_of (declared parameters.now) (declared temporaries.now) ++ ks) (ks ∷ outer)) }
    {
        self.changes.push(Change::Entered)?;
        self.declare_list(alloc, parameters, temporaries)
    }

    /// Leaves the innermost scope.
    pub(crate) fn leave(&mut self, alloc: Global) -> Result<(), Memory>
        ensures { IfOk result (λ _. (ks : List Known) (outer : List (List Known)) → IsScopes self.old ks outer →
            IsScopes self.new (left outer).now (left outer).outer) }
    {
        'changes: loop {
            let Some(change) = self.changes.pop() else {
                return Ok(());
            };
            match change {
                Change::Entered => return Ok(()),
                Change::Declared { name, fixed } => {
                    put(alloc, &mut self.fixed, name.as_slice(), fixed)?;
                }
            }
        }
    }
}
