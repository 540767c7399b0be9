//! What things are called in a message.
ghost use Rattle.std.specs.Prelude.{◌≡◌};
ghost use Rattle.ert_explain.specs.Words.{op_word, param_word, param_kind, expected_text, signature_text, field_kind, list_text};

use crate::expected::Expected;
use crate::field::Field;
use crate::op_name::OpName;
use crate::param::{Param, Signature};
use crate::place::ListName;

impl OpName {
    /// Its name.
    #[tactic(auto, unfolding(crate::specs::Words::op_word))]
    pub(crate) fn word(self) -> &'static str
        ensures { result.now ≡ op_word self }
    {
        match self {
            OpName::Tick => "tick",
            OpName::Check => "check",
            OpName::Finalize => "finalize",
            OpName::Notify => "notify",
            OpName::Serve => "serve",
            OpName::Advance => "advance",
            OpName::Deliver => "deliver",
            OpName::Turn => "turn",
            OpName::Time => "time",
            OpName::System => "system",
            OpName::Offset => "offset",
            OpName::Info => "info",
            OpName::Convert => "convert",
            OpName::Receive => "receive",
            OpName::Exit => "exit",
            OpName::Alive => "alive",
            OpName::Monitor => "monitor",
            OpName::Demonitor => "demonitor",
            OpName::Start => "start",
            OpName::Cancel => "cancel",
            OpName::Read => "read",
            OpName::CancelAsync => "cancel_async",
            OpName::ReadAsync => "read_async",
            OpName::SendAfter => "send_after",
            OpName::CancelQuiet => "cancel_quiet",
        }
    }
}

impl Param {
    /// What an argument is called.
    #[tactic(auto, unfolding(crate::specs::Words::param_word))]
    pub(crate) fn word(self) -> &'static str
        ensures { result.now ≡ param_word self }
    {
        match self {
            Param::Mono => "mono",
            Param::Sys => "sys",
            Param::Time => "time",
            Param::From => "from",
            Param::To => "to",
            Param::Label => "label",
            Param::Scheduler => "scheduler",
            Param::Process => "process",
            Param::Monitor => "monitor",
            Param::Origin => "origin",
            Param::Milliseconds => "milliseconds",
            Param::Message => "message",
            Param::Told => "told",
        }
    }

    /// What kind of value an argument has to be.
    #[tactic(auto, unfolding(crate::specs::Words::param_kind))]
    pub(crate) fn kind(self) -> &'static str
        ensures { result.now ≡ param_kind self }
    {
        match self {
            Param::Mono => "an integer of 64 bits",
            Param::Sys => "an integer of 64 bits",
            Param::Time => "an integer of 64 bits",
            Param::From => "the name of a unit or its parts per second",
            Param::To => "the name of a unit or its parts per second",
            Param::Label => "an integer of 64 bits",
            Param::Scheduler => "an integer of 64 bits",
            Param::Process => "an integer of 64 bits",
            Param::Monitor => "an integer of 64 bits",
            Param::Origin => "\"rel\" or \"abs\"",
            Param::Milliseconds => "an integer of 64 bits",
            Param::Message => "an integer from 0 to 18446744073709551615",
            Param::Told => "true or false",
        }
    }
}

impl Signature {
    /// What the arguments are called.
    #[tactic(auto, unfolding(crate::specs::Words::signature_text))]
    pub(crate) fn text(self) -> &'static str
        ensures { result.now ≡ signature_text self }
    {
        match self {
            Signature::Nothing => "no arguments",
            Signature::Reading => "2 arguments (mono, sys)",
            Signature::Conversion => "3 arguments (time, from, to)",
            Signature::Start =>
                "6 arguments (label, scheduler, origin, milliseconds, process, message)",
            Signature::OfTimer => "1 argument (label)",
            Signature::Ask => "2 arguments (label, process)",
            Signature::AskTold => "3 arguments (label, process, told)",
            Signature::OfScheduler => "1 argument (scheduler)",
            Signature::OfProcess => "1 argument (process)",
            Signature::OfMonitor => "2 arguments (process, monitor)",
        }
    }
}

impl Expected {
    /// What could stand there.
    #[tactic(auto, unfolding(crate::specs::Words::expected_text))]
    pub(crate) fn text(self) -> &'static str
        ensures { result.now ≡ expected_text self }
    {
        match self {
            Expected::Value => "a value",
            Expected::ValueOrBracket => "a value or ']'",
            Expected::Name => "a name in quotes",
            Expected::NameOrBrace => "a name in quotes or '}'",
            Expected::Colon => "':'",
            Expected::CommaOrBracket => "',' or ']'",
            Expected::CommaOrBrace => "',' or '}'",
            Expected::End => "the end of the input",
            Expected::Quote => "'\"' at the end of the string",
            Expected::Character => "no control character",
            Expected::Escape => "an escape as \\n or \\u0041",
            Expected::HexDigit => "a hexadecimal digit",
            Expected::Digit => "a digit",
            Expected::LessNesting => "at most 127 arrays and objects in one another",
            Expected::Utf8 => "a character in UTF-8",
            Expected::WholePairs => "whole pairs of surrogates in the string",
            Expected::SmallerNumber => "a number that fits a float of 64 bits",
        }
    }
}

impl Field {
    /// What kind of value a field has to be.
    #[tactic(auto, unfolding(crate::specs::Words::field_kind))]
    pub(crate) fn kind(self) -> &'static str
        ensures { result.now ≡ field_kind self }
    {
        match self {
            Field::Format => "an integer of 64 bits",
            Field::Mode => "\"no\", \"single\" or \"multi\"",
            Field::Correction => "true or false",
            Field::Start => "an integer of 64 bits",
            Field::Schedulers => "an integer of 64 bits",
            Field::Processes => "an integer of 64 bits",
            Field::Slots => "an integer of 64 bits",
            Field::First => "[mono, sys], two integers of 64 bits",
            Field::Ops => "an array",
            Field::Race => "an object",
            Field::Turns => "an integer of 64 bits",
            Field::Keeper => "an array",
            Field::Callers => "an array",
        }
    }
}

impl ListName {
    /// What a list is called.
    #[tactic(auto, unfolding(crate::specs::Words::list_text))]
    pub(crate) fn text(self) -> &'static str
        ensures { result.now ≡ list_text self }
    {
        match self {
            ListName::Ops => "ops",
            ListName::Keeper => "the list of the keeper",
            ListName::Caller(_) => "the list of a caller",
        }
    }
}
