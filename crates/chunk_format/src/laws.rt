// Laws of chunks, each the contract of a function that does nothing.
ghost use Rattle.std.specs.Prelude.{◌≡◌, ◌∷◌, ◌++◌, ℕ, List, Option};
ghost use Rattle.rb_base.specs.Doubling.{IsPaired, BeginsOtherwise, doubled};
ghost use Rattle.chunk_format.specs.Blank.{IsBlank, HasNoLeadingBlank};
ghost use Rattle.chunk_format.specs.Left.{Left};
ghost use Rattle.chunk_format.specs.Chunks.{Piece, Takes, HasChunks, left_behind, written_piece};
ghost use Rattle.chunk_format.specs.Source.{IsSource};
ghost use Rattle.chunk_format.specs.declared.chunk_iter.Unended.{Unended};

/// A text has one list of chunks, and one end: none, or one `Unended`.
pub fn has_one_list()
    ensures exists { (left : Left) →
        (pieces : List Piece) × (end : Option Unended) × HasChunks left pieces end }
    ensures unique { (left : Left) (ps qs : List Piece) (d e : Option Unended) →
        HasChunks left ps d → HasChunks left qs e → (ps ≡ qs) × (d ≡ e) }
{}

/// A body in which each mark stands twice has one source.
pub fn has_one_source()
    ensures exists { (body : List ℕ) → IsPaired 33 body → (source : List ℕ) × IsSource body source }
    ensures unique { (body s t : List ℕ) → IsSource body s → IsSource body t → s ≡ t }
{}

/// What `write_chunk` wrote, behind any blanks, and a following mark, which no mark follows, is read
/// as one chunk. Its source is what was written, where that begins with no blank.
pub fn written_is_read()
    ensures taken { (left : Left) (blanks source behind : List ℕ) →
        IsBlank blanks → BeginsOtherwise 33 behind →
        left.rest ≡ blanks ++ doubled 33 source ++ 33 ∷ behind →
        let chunk : Piece = written_piece left blanks source in Takes left chunk (left_behind chunk behind) }
    ensures source { (blanks source : List ℕ) →
        IsBlank blanks → HasNoLeadingBlank source → IsSource (blanks ++ doubled 33 source) source }
{}
