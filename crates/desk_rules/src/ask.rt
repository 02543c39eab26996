// The orders that lines of the interface ask for.
ghost use Rattle.std.specs.Prelude.{◌≡◌, []};
ghost use Rattle.std.specs.Option.{option_map};
ghost use Rattle.cecp_lines.specs.Messages.{message_of};
ghost use Rattle.uci_lines.specs.Orders.{optional_now};
ghost use Rattle.option_map.specs.WaitingOrders.Asked.{asked};
ghost use Rattle.option_map.specs.DeclaredOptions.Data.{order_seen, setup_seen, answer_seen};
ghost use Rattle.desk_rules.specs.Desk.{table, analyses};
ghost use Rattle.desk_rules.specs.Lines.{switch_text, switches, check_order, asks_for_mode, order_asked_by, asks};
ghost use Rattle.desk_rules.specs.Orders.{ponder_at_boot, analysis_at_boot};

use crate::Desk;
use crate::call::analyses;
use cecp_lines::IfaceMsg;
use option_map::{AskedOption, OptionFault, OptionValue, SetupOrder};

fn switch_text(on: bool) -> &'static [u8]
    ensures { result.now ≡ switch_text on }
{
    if on { b"true" } else { b"false" }
}

// The order that switches a check option, if there is one.
fn switch(spelled: Option<&[u8]>, on: bool) -> Option<SetupOrder<'_>>
    ensures { option_map setup_seen result ≡ option_map (switches on) (optional_now spelled.entry) }
{
    match spelled {
        Some(name) => Some(SetupOrder::Set(AskedOption {
            name,
            value: Some(OptionValue::Text(switch_text(on))),
        })),
        None => None,
    }
}

// The options' answer to a message if none is declared.
fn no_options(message: &IfaceMsg) -> Result<Option<AskedOption<'static>>, OptionFault>
    ensures { answer_seen result ≡ asked [] (message_of message.now) }
{
    match message {
        IfaceMsg::SetOption { name: _, value: _ } => Err(OptionFault::UnknownOption),
        _ => Ok(None),
    }
}

// The order that sets an option, or none if it is not set.
pub(crate) fn set(answer: Result<Option<AskedOption<'_>>, OptionFault>) -> Option<SetupOrder<'_>>
    ensures { option_map setup_seen result ≡ order_asked_by (answer_seen answer.entry) }
{
    match answer {
        Ok(Some(asked)) => Some(SetupOrder::Set(asked)),
        _ => None,
    }
}

impl Desk {
    // The order that sets a check option, if that counts as declared.
    fn check_order(&self, name: &'static [u8], on: bool) -> Option<SetupOrder<'_>>
        ensures { option_map setup_seen result ≡ check_order (table self.now) name.now on }
    {
        switch(self.spelled(name), on)
    }

    fn asks_for_mode(&self, to: bool) -> Option<SetupOrder<'_>>
        ensures { option_map setup_seen result
            ≡ asks_for_mode (table self.now) (analyses self.now.mode) to }
    {
        if analyses(self.mode) == to {
            None
        } else {
            self.check_order(b"UCI_AnalyseMode", to)
        }
    }

    // The order that a line sets an option by, of the options that count as declared.
    pub(crate) fn asked<'l: 's, 's>(
        &'s self,
        message: &IfaceMsg<'l>,
    ) -> Result<Option<AskedOption<'s>>, OptionFault>
        ensures { answer_seen result ≡ asked (table self.now) (message_of message.now) }
    {
        if self.booted {
            self.options.asked(message)
        } else {
            no_options(message)
        }
    }

    // The order that a line asks of the engine, if it asks for one; `answer` is the one that sets an option.
    #[tactic(auto, unfolding(crate::specs::Lines::asks))]
    pub(crate) fn asks<'l: 's, 's>(
        &'s self,
        gone: bool,
        message: &IfaceMsg<'l>,
        answer: Result<Option<AskedOption<'s>>, OptionFault>,
    ) -> Option<SetupOrder<'s>>
        requires { answer_seen answer ≡ asked (table self.now) (message_of message.now) }
        ensures { option_map setup_seen result ≡ asks gone self.now (message_of message.now) }
    {
        if gone {
            return None;
        }
        match message {
            IfaceMsg::New => Some(SetupOrder::NewGame),
            IfaceMsg::Force
            | IfaceMsg::Go
            | IfaceMsg::PlayOther
            | IfaceMsg::Exit
            | IfaceMsg::Result => self.asks_for_mode(false),
            IfaceMsg::Analyze => self.asks_for_mode(true),
            IfaceMsg::Hard => self.check_order(b"Ponder", true),
            IfaceMsg::Easy => self.check_order(b"Ponder", false),
            _ => set(answer),
        }
    }

    // The order that sets whether to ponder, when Boot is left.
    pub(crate) fn ponder_at_boot(&self) -> Option<SetupOrder<'_>>
        ensures { option_map setup_seen result ≡ ponder_at_boot self.now }
    {
        switch(self.options.check_name(b"Ponder"), self.pondering)
    }

    // The order that sets analysis, when Boot is left.
    pub(crate) fn analysis_at_boot(&self) -> Option<SetupOrder<'_>>
        ensures { option_map setup_seen result ≡ analysis_at_boot self.now }
    {
        if analyses(self.mode) {
            switch(self.options.check_name(b"UCI_AnalyseMode"), true)
        } else {
            None
        }
    }
}
