// Temporaries with what is assigned to them.

use let_code::Let;
use part_questions::MethodCode;
use rb_base::NameId;

/// A temporary of a method, and the one assignment to it.
#[derive(Clone, Copy)]
pub struct LetCode<'a> {
    pub code: MethodCode<'a>,
    pub variable: NameId,
    pub assignment: &'a Let<'a>,
}
