// What chunks say, by the numbers of names.
ghost use Rattle.std.specs.Prelude.{◌≡◌, map, IfOk, option_map};
ghost use Rattle.rb_base.specs.Names.{name_at};
ghost use Rattle.token_model.specs.declared.kind.Dialect.TheVariants.{Second};
ghost use Rattle.tree_model.specs.Tree.{map_sequence};
ghost use Rattle.st_tree.specs.View.{sequence_of};
ghost use Rattle.event_trees.specs.Naming.{Grows};
ghost use Rattle.image_model.specs.ImageNames.{OptionNames};
ghost use Rattle.file_model.specs.Changes.{map_definition, map_run};
ghost use Rattle.file_model.specs.Changes as model;
ghost use Rattle.file_model.specs.Forms as forms;
ghost use Rattle.file_model.specs.Words.{words_of};
ghost use Rattle.file_numbers.specs.ChangeNames.{DefinitionNames};
ghost use Rattle.chunk_forms.specs.Told.{definition_text};
ghost use Rattle.file_reading.specs.Filed.{IsNumberIn};
ghost use Rattle.file_reading.specs.Said.{said_text, SaidNames};

use crate::words::{intern, intern_words, known};
use chunk_forms::{ChunkForm, ClassDefinition, chunk_form};
use image_draft::{Change, Definition, Run};
use rb_base::{Memory, NameId, Names, Text};
use st_tree::Sequence;
use std::alloc::Global;

/// What a chunk says. Its names are numbers.
#[derive(Drop)]
pub(crate) enum Said {
    /// It is a do-it.
    Evaluates,
    /// It changes classes or methods.
    Changes(Change),
    /// It defines a class, and a place is stated for it.
    DefinesAt(Definition, usize),
    /// Methods follow.
    Opens(Run),
    /// Methods follow, and a place is stated for the first of them.
    OpensAt(Run, usize),
    /// Methods and classes go to the places that were stated for them.
    Settles,
    /// It defines a class with pool dictionaries.
    HasPools,
    /// It is a message by which file-outs define and remove, but in no form that has a meaning.
    IsUnknown,
}

/// The superclass that a definition names, as a number that has a text.
fn known_superclass(names: &mut Names, superclass: Option<NameId>) -> Result<Option<NameId>, Memory>
    ensures text { IfOk result (λ o. option_map (name_at names.new) o ≡ option_map (name_at names.old) superclass) }
    ensures known { IfOk result (λ o. OptionNames (IsNumberIn names.new) o) }
    ensures grows { Grows names.old names.new }
{
    match superclass {
        None => Ok(None),
        Some(name) => Ok(Some(known(names, name)?)),
    }
}

/// A definition by the numbers of its names.
fn definition_of(
    alloc: Global,
    definition: &ClassDefinition<'_>,
    names: &mut Names,
) -> Result<Definition, Memory>
    ensures text { IfOk result (λ d. map_definition (name_at names.new) d ≡ definition_text names.old definition.now) }
    ensures known { IfOk result (λ d. DefinitionNames (IsNumberIn names.new) d) }
    ensures grows { Grows names.old names.new }
{
    let superclass = known_superclass(names, definition.superclass)?;
    let name = intern(names, definition.name)?;
    let instance = intern_words(alloc, definition.instance, names)?;
    let shared = intern_words(alloc, definition.shared, names)?;
    let category = Text::from_slice(alloc, definition.category)?;
    Ok(Definition {
        name,
        superclass,
        instance,
        shared,
        category,
    })
}

/// A class is defined.
fn defines(
    alloc: Global,
    definition: &ClassDefinition<'_>,
    names: &mut Names,
) -> Result<Said, Memory>
    ensures text { IfOk result (λ s. said_text names.new s ≡ forms.Changes (model.Define (definition_text names.old definition.now))) }
    ensures known { IfOk result (SaidNames (IsNumberIn names.new)) }
    ensures grows { Grows names.old names.new }
{
    let definition = definition_of(alloc, definition, names)?;
    Ok(Said::Changes(Change::Define(definition)))
}

/// A class is defined, and a place is stated for it.
fn defines_at(
    alloc: Global,
    definition: &ClassDefinition<'_>,
    place: usize,
    names: &mut Names,
) -> Result<Said, Memory>
    ensures text { IfOk result (λ s. said_text names.new s ≡ forms.Changes (model.DefineAt (definition_text names.old definition.now) place)) }
    ensures known { IfOk result (SaidNames (IsNumberIn names.new)) }
    ensures grows { Grows names.old names.new }
{
    let definition = definition_of(alloc, definition, names)?;
    Ok(Said::DefinesAt(definition, place))
}

/// A class has a comment.
fn comments(alloc: Global, class: NameId, text: &[u8], names: &mut Names) -> Result<Said, Memory>
    ensures text { IfOk result (λ s. said_text names.new s ≡ forms.Changes (model.Comment (name_at names.old class) text.now)) }
    ensures known { IfOk result (SaidNames (IsNumberIn names.new)) }
    ensures grows { Grows names.old names.new }
{
    let text = Text::from_slice(alloc, text)?;
    let class = known(names, class)?;
    Ok(Said::Changes(Change::Comment { class, text }))
}

/// A class has class-instance variables of the names in a string.
fn sets_class_side(
    alloc: Global,
    class: NameId,
    variables: &[u8],
    names: &mut Names,
) -> Result<Said, Memory>
    ensures text { IfOk result (λ s. said_text names.new s ≡ forms.Changes (model.SetClassSide (name_at names.old class) (words_of variables.now))) }
    ensures known { IfOk result (SaidNames (IsNumberIn names.new)) }
    ensures grows { Grows names.old names.new }
{
    let class = known(names, class)?;
    let variables = intern_words(alloc, variables, names)?;
    Ok(Said::Changes(Change::SetClassSide {
        class,
        names: variables,
    }))
}

/// A run of methods of a class, a side and a protocol.
fn run_of(
    alloc: Global,
    class: NameId,
    meta: bool,
    protocol: &[u8],
    names: &mut Names,
) -> Result<Run, Memory>
    ensures text { IfOk result (λ r. map_run (name_at names.new) r ≡ record { class = name_at names.old class; meta = meta; protocol = protocol.now }) }
    ensures known { IfOk result (λ r. IsNumberIn names.new r.class) }
    ensures grows { Grows names.old names.new }
{
    let protocol = Text::from_slice(alloc, protocol)?;
    let class = known(names, class)?;
    Ok(Run {
        class,
        meta,
        protocol,
    })
}

/// Methods of a class, a side and a protocol follow.
fn opens(
    alloc: Global,
    class: NameId,
    meta: bool,
    protocol: &[u8],
    names: &mut Names,
) -> Result<Said, Memory>
    ensures text { IfOk result (λ s. said_text names.new s ≡ forms.Opens (record { class = name_at names.old class; meta = meta; protocol = protocol.now })) }
    ensures known { IfOk result (SaidNames (IsNumberIn names.new)) }
    ensures grows { Grows names.old names.new }
{
    let run = run_of(alloc, class, meta, protocol, names)?;
    Ok(Said::Opens(run))
}

/// The same, and a place is stated for the first of them.
fn opens_at(
    alloc: Global,
    class: NameId,
    meta: bool,
    protocol: &[u8],
    place: usize,
    names: &mut Names,
) -> Result<Said, Memory>
    ensures text { IfOk result (λ s. said_text names.new s ≡ forms.OpensAt (record { class = name_at names.old class; meta = meta; protocol = protocol.now }) place) }
    ensures known { IfOk result (SaidNames (IsNumberIn names.new)) }
    ensures grows { Grows names.old names.new }
{
    let run = run_of(alloc, class, meta, protocol, names)?;
    Ok(Said::OpensAt(run, place))
}

/// A method is removed.
fn removes_method(
    class: NameId,
    meta: bool,
    selector: &[u8],
    names: &mut Names,
) -> Result<Said, Memory>
    ensures text { IfOk result (λ s. said_text names.new s ≡ forms.Changes (model.RemoveMethod (name_at names.old class) meta selector.now)) }
    ensures known { IfOk result (SaidNames (IsNumberIn names.new)) }
    ensures grows { Grows names.old names.new }
{
    let class = known(names, class)?;
    let selector = intern(names, selector)?;
    Ok(Said::Changes(Change::RemoveMethod {
        class,
        meta,
        selector,
    }))
}

/// A class is removed.
fn removes_class(name: &[u8], names: &mut Names) -> Result<Said, Memory>
    ensures text { IfOk result (λ s. said_text names.new s ≡ forms.Changes (model.RemoveClass name.now)) }
    ensures known { IfOk result (SaidNames (IsNumberIn names.new)) }
    ensures grows { Grows names.old names.new }
{
    let name = intern(names, name)?;
    Ok(Said::Changes(Change::RemoveClass(name)))
}

/// What a chunk says whose source spells this do-it, by the numbers of its names; those that are new are added.
pub(crate) fn said_in(
    alloc: Global,
    kernel: bool,
    body: &Sequence,
    names: &mut Names,
) -> Result<Said, Memory>
    ensures text { IfOk result (λ s. said_text names.new s ≡ forms.form_of Second kernel (map_sequence (name_at names.old) (sequence_of body.now))) }
    ensures known { IfOk result (SaidNames (IsNumberIn names.new)) }
    ensures grows { Grows names.old names.new }
{
    let form = chunk_form(body, kernel, names);
    match form {
        ChunkForm::Evaluates => Ok(Said::Evaluates),
        ChunkForm::Defines(definition) => defines(alloc, &definition, names),
        ChunkForm::DefinesAt { definition, place } => defines_at(alloc, &definition, place, names),
        ChunkForm::Comments { class, text } => comments(alloc, class, text, names),
        ChunkForm::SetsClassSide {
            class,
            names: variables,
        } => sets_class_side(alloc, class, variables, names),
        ChunkForm::Opens {
            class,
            meta,
            protocol,
        } => opens(alloc, class, meta, protocol, names),
        ChunkForm::OpensAt {
            class,
            meta,
            protocol,
            place,
        } => opens_at(alloc, class, meta, protocol, place, names),
        ChunkForm::Settles => Ok(Said::Settles),
        ChunkForm::RemovesMethod {
            class,
            meta,
            selector,
        } => removes_method(class, meta, selector, names),
        ChunkForm::RemovesClass { name } => removes_class(name, names),
        ChunkForm::HasPools => Ok(Said::HasPools),
        ChunkForm::IsUnknown => Ok(Said::IsUnknown),
    }
}
