// The judge.
ghost use Rattle.std.specs.Prelude.{◌≡◌, ◌∷◌, [], List, OnOk, OnErr};
ghost use Rattle.script_lines.specs.Marks.{plain_mark};
ghost use Rattle.session_judge.specs.Clean.{CrossingsAreTheDifference, Entry, broken_rule, talk, judge_verdict};
ghost use Rattle.session_judge.specs.DialogueEvents.{dialogue_event_of};
ghost use Rattle.session_judge.specs.Rules.{broken};
ghost use Rattle.session_judge.specs.Talks.{judgement_after};
ghost use Rattle.session_judge.specs.declared.listener.Listener.{Listener as AnyListener};

use crate::dialogue_event::{DialogueEvent, dialogue_event_of};
use crate::listener::Listener;
use crate::played::PlayedLine;
use crate::rule::Rule;
use crate::search::Search;
use crate::talk::JudgedTalk;
use script_lines::Mark;
use std::alloc::Global;
use std::marker::Model;

/// Hears the marks of a log in their order, up to the first that breaks a rule.
#[derive(Drop)]
pub struct Judge {
    talk: JudgedTalk,
    played: PlayedLine,
}

impl Model for Judge {
    ghost use Rattle.session_judge.specs.declared.talk.JudgedTalk.{JudgedTalk};

    ghost Value = { JudgedTalk };

    ghost view = { λ j. j.talk };
}

impl Judge {
    /// A judge of the log that this one wrote. Nothing was heard yet.
    pub fn new(alloc: Global, listener: Listener) -> Judge
        ensures { result ≡ talk listener [] }
    {
        Judge {
            talk: JudgedTalk::new(listener),
            played: PlayedLine::new(alloc),
        }
    }

    /// The judge's reading of a mark.
    pub fn dialogue_event_of(&mut self, mark: &Mark) -> DialogueEvent
        ensures dialogue_event { result ≡ dialogue_event_of (plain_mark mark.now) }
        ensures same { self.new ≡ self.old }
    {
        dialogue_event_of(mark, &mut self.played)
    }

    /// Hears a mark, in the line with this number.
    ///
    /// # Errors
    /// The first rule that the mark breaks after the marks before it; then nothing changes.
    pub fn hear(&mut self, line: u64, mark: &Mark) -> Result<(), Rule>
        ensures step { result ≡ judge_verdict (broken self.old (dialogue_event_of (plain_mark
            mark.now))) }
        ensures after { OnOk result (self.new ≡ judgement_after self.old line (dialogue_event_of
            (plain_mark mark.now))) }
        ensures err { OnErr result (self.new ≡ self.old) }
        // A mark is refused exactly by the first rule that it breaks.
        ensures exact { (listener : AnyListener) (log : List Entry) → self.old ≡ talk listener log
            → result ≡ judge_verdict (broken_rule listener log (plain_mark mark.now)) }
        ensures goes_on { (listener : AnyListener) (log : List Entry) → self.old ≡ talk listener log
            → OnOk result
            (self.new ≡ talk listener (record { line = line; mark = plain_mark mark.now } ∷ log)) }
    {
        let dialogue_event = self.dialogue_event_of(mark);
        self.hear_dialogue_event(line, &dialogue_event)
    }

    /// The same of what a mark is.
    ///
    /// # Errors
    /// The first rule that it breaks; then nothing changes.
    pub fn hear_dialogue_event(
        &mut self,
        line: u64,
        dialogue_event: &DialogueEvent,
    ) -> Result<(), Rule>
        ensures step { result ≡ judge_verdict (broken self.old dialogue_event.now) }
        ensures after { OnOk result (self.new ≡ judgement_after self.old line dialogue_event.now) }
        ensures err { OnErr result (self.new ≡ self.old) }
    {
        if matches!(dialogue_event, DialogueEvent::Nothing) {
            return Ok(());
        }
        match self.talk.broken(dialogue_event) {
            Some(rule) => Err(rule),
            None => {
                self.talk = self.talk.after(line, dialogue_event);
                Ok(())
            }
        }
    }

    /// The search that was begun last.
    pub fn search(&self) -> Option<Search>
        ensures { result ≡ self.now.search }
    {
        self.talk.search
    }

    /// The count of orders crossing a line of the engine: they are lawful in the log of a tap alone.
    pub fn crossings(&self) -> u64
        ensures { result ≡ self.now.crossings }
    {
        self.talk.crossings
    }
}

/// A law: what a tap is forgiven, and no more, is the orders that cross.
pub fn crossings_are_the_difference()
    ensures { CrossingsAreTheDifference }
{}
