// The sides of the ten laws, over the words of the laws.
ghost use Rattle.std.specs.Prelude.{◌≡◌, false, [], ◌∷◌, codes, option_map, IfOk};
ghost use Rattle.pattern_model.specs.Patterns.{meta, var_like, send_like, cascade_like, block_like, return_like, this_selector, any_unary, no_patterns, more_messages_like, no_messages_like};
ghost use Rattle.pattern_model.specs.declared.kinds.MetaKind.TheVariants as variant;
ghost use Rattle.patterns.specs.View.{meta_of, selector_of, patterns_of, statements_from};
ghost use Rattle.certified_model.specs.Certificates as law;
ghost use Rattle.certificates.specs.Shown.{step_shown};
ghost use Rattle.derivations.specs.Words.{HasText, HasWords, number_at, by_numbers};
ghost use Rattle.derivations.specs.Sides.{in_order};

use crate::words::number_of;
use certificates::Step;
use pattern_model::MetaKind;
use patterns::{
    Meta, Pattern, PatternKind, PatternMessage, PatternSelector, PatternSequence, PatternStatement,
};
use rb_base::{Ids, Memory, Names};
use st_tree::Comments;
use std::alloc::Global;

/// A metavariable that is not doubled.
fn meta_named(names: &Names, kind: MetaKind, word: &[u8]) -> Meta
    requires { HasText names.now word.now }
    ensures { meta_of result ≡ record { kind = kind; name = number_at names.now word.now; doubled = false } }
{
    Meta {
        kind,
        name: number_of(names, word),
        doubled: false,
    }
}

/// A metavariable for an expression.
fn operand(names: &Names, word: &[u8]) -> Pattern
    requires { HasText names.now word.now }
    ensures { result ≡ by_numbers names.now (law.any_operand word.now) }
{
    let meta = meta_named(names, MetaKind::Expression, word);
    Pattern {
        kind: PatternKind::Meta { meta },
    }
}

/// A metavariable for any statements.
fn statements(names: &Names, word: &[u8]) -> Pattern
    requires { HasText names.now word.now }
    ensures { result ≡ by_numbers names.now (law.any_list word.now) }
{
    let meta = meta_named(names, MetaKind::StatementList, word);
    Pattern {
        kind: PatternKind::Meta { meta },
    }
}

/// A variable.
fn variable(names: &Names, word: &[u8]) -> Pattern
    requires { HasText names.now word.now }
    ensures { result ≡ by_numbers names.now (var_like word.now) }
{
    let name = number_of(names, word);
    Pattern {
        kind: PatternKind::Var { name },
    }
}

/// A statement without comments.
fn statement_of(alloc: Global, node: Pattern) -> PatternStatement
    ensures { result ≡ record { comments = []; node = node } }
{
    PatternStatement {
        comments: Comments::new(alloc),
        node,
    }
}

/// A block without parameters and temporaries.
fn block(alloc: Global, statements: Vec<PatternStatement>) -> Result<Pattern, Memory>
    ensures { IfOk result (λ p. p ≡ block_like [] [] (statements_from statements.items) []) }
{
    let body = PatternSequence {
        temporaries: Ids::new(alloc),
        statements,
        tail: Comments::new(alloc),
    };
    let body = Box::new(alloc, body)?;
    Ok(Pattern {
        kind: PatternKind::Block {
            parameters: Ids::new(alloc),
            body,
        },
    })
}

/// A block of one statement.
fn block_of_one(alloc: Global, statement: Pattern) -> Result<Pattern, Memory>
    ensures { IfOk result (λ p. p ≡ block_like [] [] (in_order (statement ∷ [])) []) }
{
    let mut statements = Vec::new(alloc);
    statements.push(statement_of(alloc, statement))?;
    block(alloc, statements)
}

/// A block of two statements.
fn block_of_two(alloc: Global, first: Pattern, second: Pattern) -> Result<Pattern, Memory>
    ensures { IfOk result (λ p. p ≡ block_like [] [] (in_order (first ∷ second ∷ [])) []) }
{
    let mut statements = Vec::new(alloc);
    statements.push(statement_of(alloc, first))?;
    statements.push(statement_of(alloc, second))?;
    block(alloc, statements)
}

/// A block of three statements.
fn block_of_three(
    alloc: Global,
    first: Pattern,
    second: Pattern,
    third: Pattern,
) -> Result<Pattern, Memory>
    ensures { IfOk result (λ p. p ≡ block_like [] [] (in_order (first ∷ second ∷ third ∷ [])) []) }
{
    let mut statements = Vec::new(alloc);
    statements.push(statement_of(alloc, first))?;
    statements.push(statement_of(alloc, second))?;
    statements.push(statement_of(alloc, third))?;
    block(alloc, statements)
}

/// A block of any statements.
fn some_block(alloc: Global, names: &Names, word: &[u8]) -> Result<Pattern, Memory>
    requires { HasText names.now word.now }
    ensures { IfOk result (λ p. p ≡ by_numbers names.now (law.closure_of (law.any_list word.now ∷ []))) }
{
    let any = statements(names, word);
    block_of_one(alloc, any)
}

/// A block of a variable.
fn name_block(alloc: Global, names: &Names, word: &[u8]) -> Result<Pattern, Memory>
    requires { HasText names.now word.now }
    ensures { IfOk result (λ p. p ≡ by_numbers names.now (law.the word.now)) }
{
    let statement = variable(names, word);
    block_of_one(alloc, statement)
}

/// A message to a receiver.
fn send(
    alloc: Global,
    names: &Names,
    receiver: Pattern,
    word: &[u8],
    arguments: Vec<Pattern>,
) -> Result<Pattern, Memory>
    requires { HasText names.now word.now }
    ensures { IfOk result (λ p. p ≡ send_like receiver (this_selector (number_at names.now word.now)) (patterns_of arguments.items)) }
{
    let name = number_of(names, word);
    let message = PatternMessage {
        selector: PatternSelector::Plain(name),
        arguments,
    };
    let receiver = Box::new(alloc, receiver)?;
    Ok(Pattern {
        kind: PatternKind::Send { receiver, message },
    })
}

/// A message with one argument.
fn given_one(
    alloc: Global,
    names: &Names,
    receiver: Pattern,
    word: &[u8],
    argument: Pattern,
) -> Result<Pattern, Memory>
    requires { HasText names.now word.now }
    ensures { IfOk result (λ p. p ≡ send_like receiver (this_selector (number_at names.now word.now)) (patterns_of (argument ∷ []))) }
{
    let mut arguments = Vec::new(alloc);
    arguments.push(argument)?;
    send(alloc, names, receiver, word, arguments)
}

/// A message to `` `@c `` with two arguments.
fn choice(
    alloc: Global,
    names: &Names,
    word: &[u8],
    first: Pattern,
    second: Pattern,
) -> Result<Pattern, Memory>
    requires words { HasWords names.now }
    requires known { HasText names.now word.now }
    ensures { IfOk result (λ p. p ≡ send_like (by_numbers names.now law.c) (this_selector (number_at names.now word.now)) (patterns_of (first ∷ second ∷ []))) }
{
    let mut arguments = Vec::new(alloc);
    arguments.push(first)?;
    arguments.push(second)?;
    let receiver = operand(names, b"c");
    send(alloc, names, receiver, word, arguments)
}

/// `` `@c `` with a message of the block `` [`.@s] ``.
fn short(alloc: Global, names: &Names, word: &[u8]) -> Result<Pattern, Memory>
    requires words { HasWords names.now }
    requires known { HasText names.now word.now }
    ensures { IfOk result (λ p. p ≡ by_numbers names.now (law.given_one law.c word.now law.some_s)) }
{
    let receiver = operand(names, b"c");
    let argument = some_block(alloc, names, b"s")?;
    given_one(alloc, names, receiver, word, argument)
}

/// A choice between `` [`.@s] `` and the block of a variable.
fn some_or(alloc: Global, names: &Names, word: &[u8], variable: &[u8]) -> Result<Pattern, Memory>
    requires words { HasWords names.now }
    requires known { HasText names.now word.now }
    requires known_variable { HasText names.now variable.now }
    ensures { IfOk result (λ p. p ≡ by_numbers names.now (law.given_two law.c word.now law.some_s (law.the variable.now))) }
{
    let first = some_block(alloc, names, b"s")?;
    let second = name_block(alloc, names, variable)?;
    choice(alloc, names, word, first, second)
}

/// A choice between the block of a variable and `` [`.@s] ``.
fn or_some(alloc: Global, names: &Names, variable: &[u8]) -> Result<Pattern, Memory>
    requires words { HasWords names.now }
    requires known_variable { HasText names.now variable.now }
    ensures { IfOk result (λ p. p ≡ by_numbers names.now (law.given_two law.c (codes "ifTrue:ifFalse:") (law.the variable.now) law.some_s)) }
{
    let first = name_block(alloc, names, variable)?;
    let second = some_block(alloc, names, b"s")?;
    choice(alloc, names, b"ifTrue:ifFalse:", first, second)
}

/// A choice between blocks of any statements.
fn some_choice(
    alloc: Global,
    names: &Names,
    word: &[u8],
    one: &[u8],
    other: &[u8],
) -> Result<Pattern, Memory>
    requires words { HasWords names.now }
    requires known { HasText names.now word.now }
    requires known_one { HasText names.now one.now }
    requires known_other { HasText names.now other.now }
    ensures { IfOk result (λ p. p ≡ by_numbers names.now (law.given_two law.c word.now (law.closure_of (law.any_list one.now ∷ [])) (law.closure_of (law.any_list other.now ∷ [])))) }
{
    let first = some_block(alloc, names, one)?;
    let second = some_block(alloc, names, other)?;
    choice(alloc, names, word, first, second)
}

/// A message of `` [`@c] ``, or of the block of another operand.
fn given_block(
    alloc: Global,
    names: &Names,
    receiver: Pattern,
    word: &[u8],
    operand_word: &[u8],
) -> Result<Pattern, Memory>
    requires known { HasText names.now word.now }
    requires known_operand { HasText names.now operand_word.now }
    ensures { IfOk result (λ p. p ≡ send_like receiver (this_selector (number_at names.now word.now)) (patterns_of (by_numbers names.now (law.closure_of (law.any_operand operand_word.now ∷ [])) ∷ []))) }
{
    let argument = operand_block(alloc, names, operand_word)?;
    given_one(alloc, names, receiver, word, argument)
}

/// `` (`@a and: [`@b]) and: [`@c] ``, and so for each selector.
fn left_first(alloc: Global, names: &Names, word: &[u8]) -> Result<Pattern, Memory>
    requires words { HasWords names.now }
    requires known { HasText names.now word.now }
    ensures { IfOk result (λ p. p ≡ by_numbers names.now (law.given_one (law.given_one law.a word.now (law.closure_of (law.b ∷ []))) word.now (law.closure_of (law.c ∷ [])))) }
{
    let a = operand(names, b"a");
    let first = given_block(alloc, names, a, word, b"b")?;
    given_block(alloc, names, first, word, b"c")
}

/// `` `@a and: [`@b and: [`@c]] ``, and so for each selector.
fn right_first(alloc: Global, names: &Names, word: &[u8]) -> Result<Pattern, Memory>
    requires words { HasWords names.now }
    requires known { HasText names.now word.now }
    ensures { IfOk result (λ p. p ≡ by_numbers names.now (law.given_one law.a word.now (law.closure_of (law.given_one law.b word.now (law.closure_of (law.c ∷ [])) ∷ [])))) }
{
    let a = operand(names, b"a");
    let b = operand(names, b"b");
    let second = given_block(alloc, names, b, word, b"c")?;
    let argument = block_of_one(alloc, second)?;
    given_one(alloc, names, a, word, argument)
}

/// A message of any unary selector.
fn unary_message(alloc: Global, names: &Names, word: &[u8]) -> PatternMessage
    requires { HasText names.now word.now }
    ensures selector { selector_of result.selector ≡ any_unary (record { kind = variant.Unary; name = number_at names.now word.now; doubled = false }) }
    ensures arguments { result.arguments.items ≡ [] }
{
    let meta = meta_named(names, MetaKind::Unary, word);
    PatternMessage {
        selector: PatternSelector::Unary(meta),
        arguments: Vec::new(alloc),
    }
}

/// `` self `m; `n ``.
fn cascade_to_self(alloc: Global, names: &Names) -> Result<Pattern, Memory>
    requires { HasWords names.now }
    ensures { IfOk result (λ p. p ≡ by_numbers names.now (cascade_like (var_like (codes "self")) (more_messages_like (law.any_selector (codes "m")) no_patterns (more_messages_like (law.any_selector (codes "n")) no_patterns no_messages_like)))) }
{
    let first = unary_message(alloc, names, b"m");
    let second = unary_message(alloc, names, b"n");
    let mut messages = Vec::new(alloc);
    messages.push(first)?;
    messages.push(second)?;
    let receiver = variable(names, b"self");
    let receiver = Box::new(alloc, receiver)?;
    Ok(Pattern {
        kind: PatternKind::Cascade { receiver, messages },
    })
}

/// `` self `m ``, and so for each name.
fn send_to_self(alloc: Global, names: &Names, word: &[u8]) -> Result<Pattern, Memory>
    requires words { HasWords names.now }
    requires known { HasText names.now word.now }
    ensures { IfOk result (λ p. p ≡ by_numbers names.now (law.to_self_like word.now)) }
{
    let receiver = variable(names, b"self");
    let receiver = Box::new(alloc, receiver)?;
    let message = unary_message(alloc, names, word);
    Ok(Pattern {
        kind: PatternKind::Send { receiver, message },
    })
}

/// A return.
fn returned(alloc: Global, value: Pattern) -> Result<Pattern, Memory>
    ensures { IfOk result (λ p. p ≡ return_like value) }
{
    let value = Box::new(alloc, value)?;
    Ok(Pattern {
        kind: PatternKind::Return { value },
    })
}

/// The block of `` `.@s `` and a last statement.
fn after_some(alloc: Global, names: &Names, last: Pattern) -> Result<Pattern, Memory>
    requires { HasWords names.now }
    ensures { IfOk result (λ p. p ≡ block_like [] [] (in_order (by_numbers names.now law.s ∷ last ∷ [])) []) }
{
    let some = statements(names, b"s");
    block_of_two(alloc, some, last)
}

/// `` [`.@s. self `m; `n] ``.
fn cascade_block(alloc: Global, names: &Names) -> Result<Pattern, Memory>
    requires { HasWords names.now }
    ensures { IfOk result (λ p. p ≡ by_numbers names.now (law.closure_of (law.s ∷ cascade_like (var_like (codes "self")) (more_messages_like (law.any_selector (codes "m")) no_patterns (more_messages_like (law.any_selector (codes "n")) no_patterns no_messages_like)) ∷ []))) }
{
    let cascade = cascade_to_self(alloc, names)?;
    after_some(alloc, names, cascade)
}

/// `` [`.@s. self `m. self `n] ``.
fn sends_block(alloc: Global, names: &Names) -> Result<Pattern, Memory>
    requires { HasWords names.now }
    ensures { IfOk result (λ p. p ≡ by_numbers names.now (law.closure_of (law.s ∷ law.to_self_like (codes "m") ∷ law.to_self_like (codes "n") ∷ []))) }
{
    let some = statements(names, b"s");
    let first = send_to_self(alloc, names, b"m")?;
    let second = send_to_self(alloc, names, b"n")?;
    block_of_three(alloc, some, first, second)
}

/// The block of a return of an operand.
fn return_block(alloc: Global, names: &Names, word: &[u8]) -> Result<Pattern, Memory>
    requires { HasText names.now word.now }
    ensures { IfOk result (λ p. p ≡ by_numbers names.now (law.closure_of (return_like (law.any_operand word.now) ∷ []))) }
{
    let value = operand(names, word);
    let statement = returned(alloc, value)?;
    block_of_one(alloc, statement)
}

/// The block of an operand.
fn operand_block(alloc: Global, names: &Names, word: &[u8]) -> Result<Pattern, Memory>
    requires { HasText names.now word.now }
    ensures { IfOk result (λ p. p ≡ by_numbers names.now (law.closure_of (law.any_operand word.now ∷ []))) }
{
    let statement = operand(names, word);
    block_of_one(alloc, statement)
}

/// `` [`.@s. `@c ifTrue: [^`@a] ifFalse: [^`@b]] ``.
fn returns_block(alloc: Global, names: &Names) -> Result<Pattern, Memory>
    requires { HasWords names.now }
    ensures { IfOk result (λ p. p ≡ by_numbers names.now (law.closure_of (law.s ∷ law.given_two law.c (codes "ifTrue:ifFalse:") (law.closure_of (return_like law.a ∷ [])) (law.closure_of (return_like law.b ∷ [])) ∷ []))) }
{
    let first = return_block(alloc, names, b"a")?;
    let second = return_block(alloc, names, b"b")?;
    let last = choice(alloc, names, b"ifTrue:ifFalse:", first, second)?;
    after_some(alloc, names, last)
}

/// `` [`.@s. ^`@c ifTrue: [`@a] ifFalse: [`@b]] ``.
fn returned_block(alloc: Global, names: &Names) -> Result<Pattern, Memory>
    requires { HasWords names.now }
    ensures { IfOk result (λ p. p ≡ by_numbers names.now (law.closure_of (law.s ∷ return_like (law.given_two law.c (codes "ifTrue:ifFalse:") (law.closure_of (law.a ∷ [])) (law.closure_of (law.b ∷ []))) ∷ []))) }
{
    let first = operand_block(alloc, names, b"a")?;
    let second = operand_block(alloc, names, b"b")?;
    let chosen = choice(alloc, names, b"ifTrue:ifFalse:", first, second)?;
    let last = returned(alloc, chosen)?;
    after_some(alloc, names, last)
}

/// The left side of a law; None if no law has the number.
fn left_side(alloc: Global, names: &Names, number: usize) -> Result<Option<Pattern>, Memory>
    requires { HasWords names.now }
    ensures { IfOk result (λ side. side ≡ option_map (λ l. by_numbers names.now l.0) (law.numbered_law number law.laws)) }
{
    match number {
        1 => Ok(Some(some_choice(alloc, names, b"ifTrue:ifFalse:", b"s", b"t")?)),
        2 => Ok(Some(short(alloc, names, b"ifTrue:")?)),
        3 | 6 => Ok(Some(short(alloc, names, b"ifFalse:")?)),
        4 => Ok(Some(short(alloc, names, b"and:")?)),
        5 => Ok(Some(short(alloc, names, b"or:")?)),
        7 => Ok(Some(left_first(alloc, names, b"and:")?)),
        8 => Ok(Some(left_first(alloc, names, b"or:")?)),
        9 => Ok(Some(cascade_block(alloc, names)?)),
        10 => Ok(Some(returns_block(alloc, names)?)),
        _ => Ok(None),
    }
}

/// The right side of a law; None if no law has the number.
fn right_side(alloc: Global, names: &Names, number: usize) -> Result<Option<Pattern>, Memory>
    requires { HasWords names.now }
    ensures { IfOk result (λ side. side ≡ option_map (λ l. by_numbers names.now l.1) (law.numbered_law number law.laws)) }
{
    match number {
        1 => Ok(Some(some_choice(alloc, names, b"ifFalse:ifTrue:", b"t", b"s")?)),
        2 => Ok(Some(some_or(alloc, names, b"ifTrue:ifFalse:", b"nil")?)),
        3 => Ok(Some(or_some(alloc, names, b"nil")?)),
        4 => Ok(Some(some_or(alloc, names, b"ifTrue:ifFalse:", b"false")?)),
        5 => Ok(Some(or_some(alloc, names, b"true")?)),
        6 => Ok(Some(some_or(alloc, names, b"ifFalse:ifTrue:", b"nil")?)),
        7 => Ok(Some(right_first(alloc, names, b"and:")?)),
        8 => Ok(Some(right_first(alloc, names, b"or:")?)),
        9 => Ok(Some(sends_block(alloc, names)?)),
        10 => Ok(Some(returned_block(alloc, names)?)),
        _ => Ok(None),
    }
}

/// The sides of the law of a step, in its direction; laws 7 and 8 do not go back.
pub(crate) fn sides_of(
    alloc: Global,
    names: &Names,
    step: &Step,
) -> Result<Option<(Pattern, Pattern)>, Memory>
    requires { HasWords names.now }
    ensures { IfOk result (λ sides. sides ≡ option_map (λ s. (by_numbers names.now s.0, by_numbers names.now s.1)) (law.sides_of (step_shown step.now))) }
{
    if !step.forward && (step.law == 7 || step.law == 8) {
        return Ok(None);
    }
    let Some(left) = left_side(alloc, names, step.law)? else {
        return Ok(None);
    };
    let Some(right) = right_side(alloc, names, step.law)? else {
        return Ok(None);
    };
    if step.forward {
        Ok(Some((left, right)))
    } else {
        Ok(Some((right, left)))
    }
}
