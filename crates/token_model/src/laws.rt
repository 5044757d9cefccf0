ghost use Rattle.std.specs.Prelude.{◌≡◌, ◌≢◌, ℕ, ◌<◌, ◌≤◌, ◌⊎◌, List, length, drop, Option, None};
ghost use Rattle.token_model.specs.Tokens.{IsToken};
ghost use Rattle.token_model.specs.Faults.{IsFault};
ghost use Rattle.token_model.specs.TokenLists.{Piece, HasTokens, AreInOrder, joined};
ghost use Rattle.token_model.specs.declared.kind.Dialect.{Dialect};
ghost use Rattle.token_model.specs.declared.kind.Dialect.TheVariants.{First, Second};
ghost use Rattle.token_model.specs.declared.kind.TokenKind.{TokenKind};
ghost use Rattle.token_model.specs.declared.kind.TokenKind.TheVariants.{BraceOpen, BraceClose, End};
ghost use Rattle.token_model.specs.declared.fault.LexFault.{LexFault};

/// At a place of a text at most one token begins: its kind and its end are determined.
pub fn has_at_most_one_token()
    ensures { (dialect : Dialect) (kind other : TokenKind) (text : List ℕ) (from to end : ℕ) →
        IsToken dialect kind text from to → IsToken dialect other text from end →
        (kind ≡ other) × (to ≡ end) }
{}

/// A token lies inside the text, and each but the end has a byte.
pub fn lies_inside()
    ensures inside { (dialect : Dialect) (kind : TokenKind) (text : List ℕ) (from to : ℕ) →
        IsToken dialect kind text from to → (from ≤ to) × (to ≤ length text) }
    ensures some { (dialect : Dialect) (kind : TokenKind) (text : List ℕ) (from to : ℕ) →
        IsToken dialect kind text from to → kind ≢ End → from < to }
{}

/// At each place of a text a token begins or one fault stands, never both.
pub fn has_token_or_fault()
    ensures either { (dialect : Dialect) (text : List ℕ) (at : ℕ) → at ≤ length text →
        ((kind : TokenKind) × (to : ℕ) × IsToken dialect kind text at to) ⊎ ((fault : LexFault) × IsFault dialect text at fault) }
    ensures not_both { (dialect : Dialect) (kind : TokenKind) (text : List ℕ) (at to : ℕ) (fault : LexFault) →
        IsToken dialect kind text at to → ¬ IsFault dialect text at fault }
    ensures one_fault { (dialect : Dialect) (text : List ℕ) (at : ℕ) (fault other : LexFault) →
        IsFault dialect text at fault → IsFault dialect text at other → fault ≡ other }
{}

/// A token of the first dialect is one of the second, and one of the second is one of the first
/// unless it is a brace.
pub fn differs_in_braces_alone()
    ensures first { (kind : TokenKind) (text : List ℕ) (from to : ℕ) →
        IsToken First kind text from to → IsToken Second kind text from to }
    ensures second { (kind : TokenKind) (text : List ℕ) (from to : ℕ) → kind ≢ BraceOpen → kind ≢ BraceClose →
        IsToken Second kind text from to → IsToken First kind text from to }
{}

/// From each place on a text has one list of tokens, up to its end or to one fault.
pub fn has_one_list()
    ensures some { (dialect : Dialect) (text : List ℕ) (at : ℕ) → at ≤ length text →
        (tokens : List Piece) × (fault : Option LexFault) × HasTokens dialect text at tokens fault }
    ensures one { (dialect : Dialect) (text : List ℕ) (at : ℕ) (tokens others : List Piece) (fault other : Option LexFault) →
        HasTokens dialect text at tokens fault → HasTokens dialect text at others other →
        (tokens ≡ others) × (fault ≡ other) }
{}

/// The tokens of a text have their spans in order. Where no fault is met, the tokens and the blanks
/// between them, joined, are the text.
pub fn joins_to_the_text()
    ensures in_order { (dialect : Dialect) (text : List ℕ) (at : ℕ) (tokens : List Piece) (fault : Option LexFault) →
        HasTokens dialect text at tokens fault → AreInOrder at tokens }
    ensures joined { (dialect : Dialect) (text : List ℕ) (at : ℕ) (tokens : List Piece) →
        HasTokens dialect text at tokens None → joined text at tokens ≡ drop at text }
{}
