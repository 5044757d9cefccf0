// The book that an image and its session are.
ghost use Rattle.std.specs.Prelude.{◌≡◌, ℕ, List, map, IfOk, OnOk};
ghost use Rattle.rb_base.specs.Names.{name_at};
ghost use Rattle.class_table.specs.Valid.{IsOrderly};
ghost use Rattle.class_table.specs.View.{image_of};
ghost use Rattle.wider_slots.specs.Closed.{IsClosed};
ghost use Rattle.history_model.specs.History.{opened, stepped};
ghost use Rattle.command_numbers.specs.MappedCommands.{map_condition};
ghost use Rattle.session_model.specs.Scripts.{rules};
ghost use Rattle.commands.specs.Views.{condition_of, request_in, HasSelf, IsKnownRequest};
ghost use Rattle.session.specs.Log.{IsLogOf};
ghost use Rattle.session.specs.History.{history_of};
ghost use Rattle.team_core.specs.declared.book.BookRefusal.TheVariants as refused;
ghost use Rattle.rule_model.specs.RuleCommands.{Derived};
ghost use Rattle.certificates.specs.Shown.{step_shown};
ghost use Rattle.session_book.specs.Shared.{reason_text, condition_text, IsMoved};

use certificates::Certificate;
use class_table::Image;
use commands::{Condition, Request};
use proposals::Proposal;
use rb_base::{Memory, Names, Steps, Text};
use refusal_lines::{push_condition, push_not_derived};
use session::{GroupRefusal, Session, StepRefusal};
use std::alloc::Global;
use std::marker::Model;
use std::sync::ledger::Ledger;
use team_core::{Book, BookRefusal};

/// An image and its session. Contracts see the image and the log of what was done with it.
pub struct SessionBook {
    alloc: Global,
    image: Image,
    session: Session,
}

/// It is written out and not derived: a function that gives up a book calls this one, and goes over no class itself.
impl Drop for SessionBook {
    fn drop(self) {
        let SessionBook {
            alloc: _,
            image: _,
            session: _,
        } = self;
    }
}

impl Model for SessionBook {
    ghost use Rattle.session_book.specs.Shared.{Shared, coded_shared};

    ghost Value = { Shared };

    ghost coded = { coded_shared };

    ghost view = { λ a. record { image = a.image; log = a.session } };

    ghost use Rattle.commands.specs.Views.{HasSelf};
    ghost use Rattle.session.specs.Log.{IsLogOf};

    ghost invariant = { λ a. IsLogOf a.image a.session × HasSelf a.image.names };
}

/// Why the book is not moved if what has this number is refused for a condition.
fn unmet(alloc: Global, nth: usize, condition: Condition, names: &Names) -> BookRefusal<Text>
    ensures { (n : ℕ) (q : List ℕ) → result ≡ refused.Cause n q → (n ≡ nth) × (q ≡ condition_text (map_condition (name_at names.now) (condition_of condition))) }
{
    let mut cause = Text::new(alloc);
    match push_condition(condition, names, &mut cause) {
        Ok(()) => BookRefusal::Cause { nth, cause },
        Err(Memory) => BookRefusal::Memory,
    }
}

/// Why the book is not moved if what has this number is a rule that its certificate does not derive.
fn underived(alloc: Global, nth: usize, certificate: &Certificate) -> BookRefusal<Text>
    ensures { (n : ℕ) (q : List ℕ) → result ≡ refused.Cause n q → (n ≡ nth) × (q ≡ reason_text (Derived (map step_shown certificate.now.steps.items))) }
{
    let mut cause = Text::new(alloc);
    match push_not_derived(certificate, &mut cause) {
        Ok(()) => BookRefusal::Cause { nth, cause },
        Err(Memory) => BookRefusal::Memory,
    }
}

/// Undoes or does again what was done with an image last.
fn moved_by<L: Ledger>(
    alloc: Global,
    session: &mut Session,
    image: &mut Image,
    request: Request,
    steps: &mut Steps<L>,
) -> Result<(), BookRefusal<Text>>
    requires log { IsLogOf image.old session.old }
    requires self_known { HasSelf image.old.names }
    requires known { IsKnownRequest image.old.names request }
    ensures log { IsLogOf image.new session.new }
    ensures moved { IsMoved image.old session.old (stepped rules (history_of image.old session.old) (request_in image.old.names request)) image.new session.new result }
{
    match session.step(image, request, steps) {
        Ok(()) => Ok(()),
        Err(StepRefusal::Condition(condition)) => { Err(unmet(alloc, 1, condition, image.names())) }
        Err(StepRefusal::Memory) => Err(BookRefusal::Memory),
    }
}

impl SessionBook {
    /// The book of an image with which nothing was done.
    pub fn open<L: Ledger>(
        alloc: Global,
        image: Image,
        steps: &mut Steps<L>,
    ) -> Result<SessionBook, Memory>
        requires closed { IsClosed image }
        requires orderly { IsOrderly image }
        requires self_known { HasSelf image.names }
        ensures image { IfOk result (λ b. b.image ≡ image) }
        ensures history { IfOk result (λ b. history_of b.image b.log ≡ opened rules (image_of image)) }
    {
        let mut session = Session::new(alloc);
        session.open(&image, steps)?;
        Ok(SessionBook {
            alloc,
            image,
            session,
        })
    }

    /// The image as it is now.
    pub fn image(&self) -> &Image
        ensures image { result.now ≡ self.now.image }
        ensures orderly { IsOrderly result.now }
    {
        &self.image
    }
}

impl Book for SessionBook {
    ghost use Rattle.session_model.specs.Scripts.{Version};
    ghost use Rattle.team_core.specs.History.{HistoryOf, RulesOf, Group, Back, Forward, moved, Moves, Keeps};
    ghost use Rattle.session_book.specs.Shared.{shared_history, book_rules, fits_in};

    type Command = Proposal;

    type Cause = Text;

    ghost State = { Version };

    ghost history = { λ b. shared_history b };

    ghost rules = { λ b. book_rules b.image.names };

    ghost fits = { λ b p. fits_in b.image.names p };

    fn group<L: Ledger>(
        &mut self,
        commands: &[Proposal],
        steps: &mut Steps<L>,
    ) -> Result<(), BookRefusal<Text>> {
        match self.session.step_all(&mut self.image, commands, steps) {
            Ok(()) => Ok(()),
            Err(GroupRefusal::Condition { nth, condition }) => {
                Err(unmet(self.alloc, nth, condition, self.image.names()))
            }
            Err(GroupRefusal::NotDerived { nth, certificate }) => {
                Err(underived(self.alloc, nth, certificate))
            }
            Err(GroupRefusal::Memory) => Err(BookRefusal::Memory),
        }
    }

    fn back<L: Ledger>(&mut self, steps: &mut Steps<L>) -> Result<(), BookRefusal<Text>> {
        moved_by(
            self.alloc,
            &mut self.session,
            &mut self.image,
            Request::Undo,
            steps,
        )
    }

    fn forward<L: Ledger>(&mut self, steps: &mut Steps<L>) -> Result<(), BookRefusal<Text>> {
        moved_by(
            self.alloc,
            &mut self.session,
            &mut self.image,
            Request::Redo,
            steps,
        )
    }
}
