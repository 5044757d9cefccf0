// The steps of a session.
ghost use Rattle.std.specs.Prelude.{◌≡◌, ◌≢◌, ◌<◌, ◌≤◌, ℕ, ◌++◌, ◌∷◌, [], length, map, option_map, take, Some, None, Ok, Err, IfOk, IfErr, OnOk, OnErr, vec_len};
ghost use Rattle.std.specs.List.{AllByRecursion};
ghost use Rattle.std.specs.Vec.{vec_capacity};
ghost use Rattle.rb_base.specs.Names.{name_at};
ghost use Rattle.image_model.specs.Image.{ImageOf};
ghost use Rattle.image_model.specs.ImageNames.{OptionNames};
ghost use Rattle.run_model.specs.Values.{Name};
ghost use Rattle.run_model.specs.Renamings.{no_renaming};
ghost use Rattle.class_table.specs.Slots.{Slots};
ghost use Rattle.class_table.specs.View.{image_of, number_image};
ghost use Rattle.class_table.specs.Valid.{IsOrderly};
ghost use Rattle.wider_slots.specs.Closed.{IsClosed};
ghost use Rattle.wider_slots.specs.Wider.{Wider};
ghost use Rattle.history_model.specs.Rules.{Perform, Undo, Redo, Asks};
ghost use Rattle.history_model.specs.History.{opened, stepped};
ghost use Rattle.command_model.specs.Asked.{text_asked};
ghost use Rattle.command_model.specs.Judged as judged;
ghost use Rattle.command_numbers.specs.CommandNames.{CommandNames, ConditionNames};
ghost use Rattle.command_numbers.specs.MappedCommands.{map_command, map_condition};
ghost use Rattle.session_model.specs.OwnConditions.{first_own_false};
ghost use Rattle.session_model.specs.Scripts.{rules};
ghost use Rattle.commands.specs.Actions.{map_action, ActionNames};
ghost use Rattle.commands.specs.Views.{action_of, asked_by, command_of, condition_of, request_in, HasSelf, IsKnownRequest};
ghost use Rattle.commands.specs.declared.condition.Condition.{Condition};
ghost use Rattle.kept_runs.specs.WellSpelled.{IsWellSpelledAction};
ghost use Rattle.rule_laws.specs.KeptRules.{IsSpelledRule};
ghost use Rattle.ruled_laws.specs.SpelledRequests.{IsSpelledAsked};
ghost use Rattle.matched_histories.specs.MatchedHistories.{IsMatchedHistory};
ghost use Rattle.session.specs.Log.{IsLogOf};
ghost use Rattle.new_names.specs.Shown.{ShowsTheSame};
ghost use Rattle.session.specs.Called.{shown_by};
ghost use Rattle.session.specs.History.{renames_done, images_judged, renamed_along, history_of};
ghost use Rattle.session.specs.Stepping.{IsStepped, after_commands};
ghost use Rattle.proposals.specs.Proposed.{Proposed, asked_in};
ghost use Rattle.session.specs.Refused.{rule_told, group_told};
ghost use Rattle.session.specs.Making.{IsEntered};
ghost use Rattle.session.specs.Grouping.{grouped};
ghost use Rattle.event_trees.specs.Naming.{Grows};
ghost use Rattle.certificates.specs.Asked.{command_in, IsKnownRule};
ghost use Rattle.rule_model.specs.RuleCommands.{Reason, Unmet, Derived};
ghost use Rattle.ruled_model.specs.RuledScripts.{Applies, ruled};
ghost use Rattle.session.specs.declared.refusal.StepRefusal.TheVariants as refusal;
ghost use Rattle.session.specs.declared.refusal.RuleRefusal.TheVariants as rule_refusal;

use crate::done::{Done, do_again, take_back};
use crate::grouping::perform_group;
use crate::performing::perform_each;
use crate::refusal::{GroupRefusal, RuleRefusal, StepRefusal};
use crate::renames::AllRenames;
use crate::ruling::perform_rule;
use certificates::RuleRequest;
use class_table::{Image, Place};
use commands::{Action, Command, Condition, Request};
use composites::{first_own_false, steps_of};
use conditions::{first_false, kept_of};
use matched_histories::law_matched_histories;
use new_names::law_composed_names;
use proposals::Proposal;
use rb_base::{Memory, Steps};
use reference_index::{Index, build};
use std::alloc::Global;
use std::marker::Model;
use std::sync::ledger::Ledger;

/// What is kept of an image that commands change: its index, and the log of what was done with it.
pub struct Session {
    alloc: Global,
    index: Index,
    // The places at which the index is not that of the image yet.
    stale: Vec<Place>,
    // The entries in the order in which they were done.
    entries: Vec<Done>,
    // How many of them are done; those behind are undone.
    done: usize,
}

/// It is written out and not derived: a function that gives up a session calls this one, and goes over no entry itself.
impl Drop for Session {
    fn drop(self) {
        let Session {
            alloc: _,
            index: _,
            stale: _,
            entries: _,
            done: _,
        } = self;
    }
}

impl Model for Session {
    ghost use Rattle.std.specs.Prelude.{◌≤◌, length};
    ghost use Rattle.session.specs.Log.{Log, log_at};
    ghost use Rattle.session.specs.LogCode.{coded_log};

    ghost Value = { Log };

    ghost coded = { coded_log };

    ghost view = { λ a. log_at a.index a.stale.items a.entries.items a.done };

    ghost invariant = { λ a. a.done ≤ length a.entries.items };
}

/// Puts an entry behind those that are done, in room that was made; those that were undone are dropped.
fn note(entries: &mut Vec<Done>, done: usize, entry: Done)
    requires { vec_len entries.old < vec_capacity entries.old }
    ensures { entries.new.items ≡ take done entries.old.items ++ entry ∷ [] }
{
    entries.truncate(done);
    let _ = entries.push(entry);
}

impl Session {
    /// The session of an image without code, which takes no memory.
    pub fn new(alloc: Global) -> Session
        ensures { result ≡ record { index = record { methods = []; doits = [] }; stale = []; back = []; forth = [] } }
    {
        Session {
            alloc,
            index: Index::new(alloc),
            stale: Vec::new(alloc),
            entries: Vec::new(alloc),
            done: 0,
        }
    }

    /// Opens an image, with which nothing was done. On want of memory the session is as before.
    pub fn open<L: Ledger>(&mut self, image: &Image, steps: &mut Steps<L>) -> Result<(), Memory>
        requires closed { IsClosed image.now }
        requires orderly { IsOrderly image.now }
        ensures log { OnOk result (IsLogOf image.now self.new) }
        ensures history { OnOk result (history_of image.now self.new ≡ opened rules (image_of image.now)) }
        ensures matched { OnOk result (IsMatchedHistory (image_of image.now) (history_of image.now self.new)) }
        ensures err { OnErr result (self.new ≡ self.old) }
    {
        law_matched_histories();
        let index = build(self.alloc, image, steps)?;
        self.index = index;
        self.stale.clear();
        self.entries.clear();
        self.done = 0;
        Ok(())
    }

    /// What the commands rename that are done: what classes and selectors of the image that was opened are called now, which is
    /// all of it that a run shows; and what each command renames, in order. One after the other, each in the image in which its
    /// command was judged, they rename what the present version of the history does.
    pub fn renames(&self, alloc: Global) -> Result<AllRenames, Memory>
        ensures shows { (s : Slots) → IsLogOf s self.now → IfOk result (λ renamed. ShowsTheSame (history_of s self.now).now.renaming (shown_by s.names renamed)) }
        ensures commands { IfOk result (λ renamed. renamed.commands.items ≡ renames_done self.now) }
        ensures renaming { (s : Slots) → IfOk result (λ renamed. (history_of s self.now).now.renaming ≡ renamed_along s.names no_renaming (images_judged s self.now.back) renamed.commands.items) }
    {
        law_composed_names();
        let mut found = Vec::new(alloc);
        for entry in &self.entries[..self.done] {
            entry.put_renames(&mut found)?;
        }
        AllRenames::by(alloc, found)
    }

    /// Makes the index that of the image where a refused action left it behind.
    fn renew<L: Ledger>(&mut self, image: &Image, steps: &mut Steps<L>) -> Result<(), Memory>
        requires { IsLogOf image.now self.old }
        ensures log { IsLogOf image.now self.new }
        ensures same { history_of image.now self.new ≡ history_of image.now self.old }
        ensures renewed { OnOk result (self.new.stale ≡ []) }
    {
        self.index.update(image, self.stale.as_slice(), steps)?;
        self.stale.clear();
        Ok(())
    }

    /// Takes the nearest action back.
    fn undo<L: Ledger>(
        &mut self,
        image: &mut Image,
        steps: &mut Steps<L>,
    ) -> Result<(), StepRefusal>
        requires log { IsLogOf image.old self.old }
        requires renewed { self.old.stale ≡ [] }
        ensures { IsStepped image.old self.old (stepped rules (history_of image.old self.old) Undo) image.new self.new result }
    {
        if self.done == 0 {
            return Err(StepRefusal::Condition(Condition::UndoLeft));
        }
        let last = self.done - 1;
        let entry = &mut self.entries[last];
        take_back(
            image,
            &mut self.index,
            &mut entry.commands,
            &entry.touched,
            steps,
        )?;
        self.done = last;
        Ok(())
    }

    /// Does again the action that was undone last.
    fn redo<L: Ledger>(
        &mut self,
        image: &mut Image,
        steps: &mut Steps<L>,
    ) -> Result<(), StepRefusal>
        requires log { IsLogOf image.old self.old }
        requires renewed { self.old.stale ≡ [] }
        ensures { IsStepped image.old self.old (stepped rules (history_of image.old self.old) Redo) image.new self.new result }
    {
        if self.entries.len() <= self.done {
            return Err(StepRefusal::Condition(Condition::RedoLeft));
        }
        let entry = &mut self.entries[self.done];
        do_again(
            image,
            &mut self.index,
            &mut entry.commands,
            &entry.touched,
            steps,
        )?;
        self.done += 1;
        Ok(())
    }

    /// Does commands as one action, and drops what was undone. Where one is refused, those before it are taken back.
    fn perform_all<L: Ledger>(
        &mut self,
        image: &mut Image,
        commands: &[Command],
        steps: &mut Steps<L>,
    ) -> Result<(), StepRefusal>
        requires log { IsLogOf image.old self.old }
        requires renewed { self.old.stale ≡ [] }
        requires self_known { HasSelf image.old.names }
        requires known { AllByRecursion (λ c. CommandNames (λ n. n < length image.old.names) (command_of c)) commands.now }
        ensures { IsStepped image.old self.old (after_commands (history_of image.old self.old) (map (λ c. map_command (name_at image.old.names) (command_of c)) commands.now)) image.new self.new result }
    {
        if self.entries.reserve(1).is_err() {
            return Err(StepRefusal::Memory);
        }
        let mut entry = Done::new(self.alloc);
        match perform_each(
            self.alloc,
            image,
            &mut self.index,
            commands,
            &mut entry,
            steps,
        ) {
            Ok(()) => {
                note(&mut self.entries, self.done, entry);
                self.done = self.entries.len();
                Ok(())
            }
            Err(refusal) => {
                self.stale = entry.undo(image);
                Err(refusal)
            }
        }
    }

    /// The first condition of a single command that is false in the image, if there is one. The command is not done. The error is
    /// want of memory.
    pub fn first_false<L: Ledger>(
        &mut self,
        image: &Image,
        command: &Command,
        steps: &mut Steps<L>,
    ) -> Result<Option<Condition>, Memory>
        requires log { IsLogOf image.now self.old }
        requires known { CommandNames (λ n. n < length image.now.names) (command_of command.now) }
        ensures log { IsLogOf image.now self.new }
        ensures same { history_of image.now self.new ≡ history_of image.now self.old }
        ensures first { IfOk result (λ found. option_map condition_of found ≡ judged.first_false (asked_by image.now.names) (number_image image.now) (command_of command.now)) }
        ensures known { IfOk result (λ found. OptionNames (λ c. ConditionNames (λ n. n < length image.now.names) (condition_of c)) found) }
    {
        self.renew(image, steps)?;
        let kept = kept_of(self.alloc, image, command, steps)?;
        first_false(self.alloc, image, &self.index, command, &kept, steps)
    }

    /// Makes the index that of the image, and refuses the action where one of its own conditions is false.
    fn judge<L: Ledger>(
        &mut self,
        image: &Image,
        action: &Action,
        steps: &mut Steps<L>,
    ) -> Result<(), StepRefusal>
        requires log { IsLogOf image.now self.old }
        requires known { ActionNames (λ n. n < length image.now.names) (action_of action.now) }
        ensures log { IsLogOf image.now self.new }
        ensures same { history_of image.now self.new ≡ history_of image.now self.old }
        ensures renewed { OnOk result (self.new.stale ≡ []) }
        ensures accepted { OnOk result (first_own_false text_asked (image_of image.now) (map_action (name_at image.now.names) (action_of action.now)) ≡ None) }
        ensures refused { IfErr result (λ e. (c : Condition) → e ≡ refusal.Condition c →
            stepped rules (history_of image.now self.old) (Perform (map_action (name_at image.now.names) (action_of action.now))) ≡ Err (map_condition (name_at image.now.names) (condition_of c))) }
    {
        self.renew(image, steps)?;
        if let Some(condition) = first_own_false(self.alloc, image, &self.index, action, steps)? {
            return Err(StepRefusal::Condition(condition));
        }
        Ok(())
    }

    /// Does the action, and drops what was undone.
    fn perform<L: Ledger>(
        &mut self,
        image: &mut Image,
        action: Action,
        steps: &mut Steps<L>,
    ) -> Result<(), StepRefusal>
        requires log { IsLogOf image.old self.old }
        requires self_known { HasSelf image.old.names }
        requires known { ActionNames (λ n. n < length image.old.names) (action_of action) }
        ensures { IsStepped image.old self.old (stepped rules (history_of image.old self.old) (Perform (map_action (name_at image.old.names) (action_of action)))) image.new self.new result }
    {
        self.judge(image, &action, steps)?;
        let commands = steps_of(self.alloc, image, &self.index, action, steps)?;
        self.perform_all(image, commands.as_slice(), steps)
    }

    /// Does what a line of a script asks for. Undo and redo take no memory for the log. After a refusal the image may have
    /// further slots that are not live. Each version of the history stays matched with the image that was opened, up to what it
    /// renames.
    pub fn step<L: Ledger>(
        &mut self,
        image: &mut Image,
        request: Request,
        steps: &mut Steps<L>,
    ) -> Result<(), StepRefusal>
        requires log { IsLogOf image.old self.old }
        requires self_known { HasSelf image.old.names }
        requires known { IsKnownRequest image.old.names request }
        ensures log { IsLogOf image.new self.new }
        ensures names { image.new.names ≡ image.old.names }
        ensures done { OnOk result (stepped rules (history_of image.old self.old) (request_in image.old.names request) ≡ Ok (history_of image.new self.new)) }
        ensures same { OnErr result (history_of image.new self.new ≡ history_of image.old self.old) }
        ensures room { OnErr result (Wider image.old image.new) }
        ensures refused { IfErr result (λ e. (c : Condition) → e ≡ refusal.Condition c →
            stepped rules (history_of image.old self.old) (request_in image.old.names request) ≡ Err (map_condition (name_at image.old.names) (condition_of c))) }
        ensures matched { (first : ImageOf Name) → Asks IsWellSpelledAction (request_in image.old.names request) →
            IsMatchedHistory first (history_of image.old self.old) → IsMatchedHistory first (history_of image.new self.new) }
    {
        law_matched_histories();
        match request {
            Request::Perform(action) => self.perform(image, action, steps),
            Request::Undo => {
                self.renew(image, steps)?;
                self.undo(image, steps)
            }
            Request::Redo => {
                self.renew(image, steps)?;
                self.redo(image, steps)
            }
        }
    }

    /// Does what is proposed as one entry, and drops what was undone. If any of it is refused, what was done before it is taken
    /// back.
    fn perform_group<'a, L: Ledger>(
        &mut self,
        image: &mut Image,
        proposals: &'a [Proposal],
        steps: &mut Steps<L>,
    ) -> Result<(), GroupRefusal<'a>>
        requires some { proposals.now ≢ [] }
        requires log { IsLogOf image.old self.old }
        requires renewed { self.old.stale ≡ [] }
        requires self_known { HasSelf image.old.names }
        requires known { AllByRecursion (λ p. p.names ≤ length image.old.names) proposals.now }
        ensures { IsEntered image.old self.old (grouped (history_of image.old self.old) (map (asked_in image.old.names) proposals.now)) image.new self.new group_told result }
    {
        if self.entries.reserve(1).is_err() {
            return Err(GroupRefusal::Memory);
        }
        let mut entry = Done::new(self.alloc);
        match perform_group(
            self.alloc,
            image,
            &mut self.index,
            proposals,
            &mut entry,
            steps,
        ) {
            Ok(()) => {
                note(&mut self.entries, self.done, entry);
                self.done = self.entries.len();
                Ok(())
            }
            Err(refusal) => {
                self.stale = entry.undo(image);
                Err(refusal)
            }
        }
    }

    /// Does what is proposed as one entry of the history, each in the image after those before it; nothing that is proposed
    /// changes nothing. After a refusal nothing of it is left but further slots that are not live. The names of the image may be
    /// more afterwards.
    pub fn step_all<'a, L: Ledger>(
        &mut self,
        image: &mut Image,
        proposals: &'a [Proposal],
        steps: &mut Steps<L>,
    ) -> Result<(), GroupRefusal<'a>>
        requires log { IsLogOf image.old self.old }
        requires self_known { HasSelf image.old.names }
        requires known { AllByRecursion (λ p. p.names ≤ length image.old.names) proposals.now }
        ensures log { IsLogOf image.new self.new }
        ensures names { Grows image.old.names image.new.names }
        ensures done { OnOk result (grouped (history_of image.old self.old) (map (asked_in image.old.names) proposals.now) ≡ Ok (history_of image.new self.new)) }
        ensures same { OnErr result (history_of image.new self.new ≡ history_of image.old self.old) }
        ensures room { OnErr result (Wider image.old image.new) }
        ensures refused { IfErr result (λ e. (q : ℕ × Reason) → group_told image.new.names e ≡ Some q →
            grouped (history_of image.old self.old) (map (asked_in image.old.names) proposals.now) ≡ Err q) }
        ensures matched { (first : ImageOf Name) → AllByRecursion IsSpelledAsked (map (asked_in image.old.names) proposals.now) →
            IsMatchedHistory first (history_of image.old self.old) → IsMatchedHistory first (history_of image.new self.new) }
    {
        law_matched_histories();
        if proposals.is_empty() {
            return Ok(());
        }
        self.renew(image, steps)?;
        self.perform_group(image, proposals, steps)
    }

    /// Rewrites all code of users by the rule as one entry, and drops what was undone. If it is refused, all is put back.
    fn perform_rule<L: Ledger>(
        &mut self,
        image: &mut Image,
        request: &RuleRequest,
        steps: &mut Steps<L>,
    ) -> Result<(), RuleRefusal>
        requires log { IsLogOf image.old self.old }
        requires renewed { self.old.stale ≡ [] }
        requires self_known { HasSelf image.old.names }
        requires known { IsKnownRule image.old.names request.now }
        ensures { IsEntered image.old self.old (stepped ruled (history_of image.old self.old) (Perform (Applies (command_in image.old.names request.now)))) image.new self.new (rule_told (command_in image.old.names request.now).certificate) result }
    {
        if self.entries.reserve(1).is_err() {
            return Err(RuleRefusal::Memory);
        }
        let mut entry = Done::new(self.alloc);
        match perform_rule(
            self.alloc,
            image,
            &mut self.index,
            request,
            &mut entry,
            steps,
        ) {
            Ok(()) => {
                note(&mut self.entries, self.done, entry);
                self.done = self.entries.len();
                Ok(())
            }
            Err(refusal) => {
                self.stale = entry.undo(image);
                Err(refusal)
            }
        }
    }

    /// Rewrites all code of users by the rule, as one entry of the history, and drops what was undone. The names of the image may be
    /// more afterwards.
    ///
    /// # Errors
    ///
    /// Code looks at the program itself; the certificate does not derive the rule; a tree is too high afterwards; or want of memory.
    /// The image shows the same as before then, and its history is the same.
    pub fn apply_rule<L: Ledger>(
        &mut self,
        image: &mut Image,
        request: &RuleRequest,
        steps: &mut Steps<L>,
    ) -> Result<(), RuleRefusal>
        requires log { IsLogOf image.old self.old }
        requires self_known { HasSelf image.old.names }
        requires known { IsKnownRule image.old.names request.now }
        ensures log { IsLogOf image.new self.new }
        ensures names { Grows image.old.names image.new.names }
        ensures done { OnOk result (stepped ruled (history_of image.old self.old) (Perform (Applies (command_in image.old.names request.now))) ≡ Ok (history_of image.new self.new)) }
        ensures same { OnErr result (history_of image.new self.new ≡ history_of image.old self.old) }
        ensures room { OnErr result (Wider image.old image.new) }
        ensures refused { IfErr result (λ e. (c : Condition) → e ≡ rule_refusal.Condition c →
            stepped ruled (history_of image.old self.old) (Perform (Applies (command_in image.old.names request.now))) ≡ Err (Unmet (map_condition (name_at image.new.names) (condition_of c)))) }
        ensures underived { IfErr result (λ e. e ≡ rule_refusal.NotDerived →
            stepped ruled (history_of image.old self.old) (Perform (Applies (command_in image.old.names request.now))) ≡ Err (Derived (command_in image.old.names request.now).certificate)) }
        ensures matched { (first : ImageOf Name) → IsSpelledRule (command_in image.old.names request.now) →
            IsMatchedHistory first (history_of image.old self.old) → IsMatchedHistory first (history_of image.new self.new) }
    {
        law_matched_histories();
        self.renew(image, steps)?;
        self.perform_rule(image, request, steps)
    }
}
