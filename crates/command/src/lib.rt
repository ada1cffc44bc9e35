//! A payload decoded: what it asks for, or the status of its first fault. Every function is equal to a rule of `rules`.

#![tactic(auto, unfolding(rules::specs::Fields::rule_of, rules::specs::Fields::rule_in, rules::specs::Fields::rows))]

ghost use Rattle.std.specs.Prelude.{◌≡◌, Ok};
ghost use Rattle.rules.specs.Decode.{refused, command_in, decode};
ghost use Rattle.command.specs.Kind.{number_of};
ghost use Rattle.command.specs.Answer.{answered};

use fields::Fields;
use kind::CommandKind;
use rules::{Command, Decoding, MAX_MEMBERS, Members, Status, Terms};

mod flow;
mod group;
mod kind;
mod route;

// The types of the fields of a payload.
const CMD_TYPE: u32 = 1;

const CMD_INFO: u32 = 2;

const NO_MEMBERS: Members = [0; MAX_MEMBERS];

#[tactic(auto, unfolding(rules::specs::Decode::refused, rules::specs::Members::pad))]
fn refused(status: Status) -> Decoding
    ensures { result ≡ refused status }
{
    Decoding {
        what: Err(status),
        members: [0; MAX_MEMBERS],
    }
}

// A command, with the low bits of its group's members.
fn carried(command: Command, members: Members) -> Decoding
    ensures { result ≡ answered (Ok (command, members)) }
{
    Decoding {
        what: Ok(command),
        members: members,
    }
}

// A command in CMD_INFO, by its kind, with the low bits of its group's members.
fn command_in(kind: CommandKind, info: &Fields<'_>) -> Result<(Command, Members), Status>
    ensures { answered result ≡ command_in info.now.terms (number_of kind) info.now.bytes }
{
    match kind {
        CommandKind::FlowAdd => Ok((Command::FlowAdd(flow::flow_in(info)?), NO_MEMBERS)),
        CommandKind::FlowMod => Ok((Command::FlowMod(flow::flow_in(info)?), NO_MEMBERS)),
        CommandKind::FlowDel => Ok((Command::FlowDel(flow::flow_key_in(info)?), NO_MEMBERS)),
        CommandKind::GroupAdd => {
            let (group, members) = group::group_in(info)?;
            Ok((Command::GroupAdd(group), members))
        }
        CommandKind::GroupMod => {
            let (group, members) = group::group_in(info)?;
            Ok((Command::GroupMod(group), members))
        }
        CommandKind::GroupDel => Ok((Command::GroupDel(group::group_key_in(info)?), NO_MEMBERS)),
    }
}

// The command of a payload, or its first fault.
fn command_of(payload: &[u8], terms: Terms) -> Result<(Command, Members), Status>
    ensures { answered result ≡ decode terms payload.now }
{
    let top = Fields::new(terms, payload)?;
    let number = top.get(CMD_TYPE, 2);
    let info = top.get(CMD_INFO, 0);
    if !(found::is_at(number) & found::is_at(info)) {
        return Err(Status::Einval);
    }
    let kind = CommandKind::try_from(found::number_in(payload, 2, number))?;
    let info = Fields::new(terms, found::nest_in(payload, info))?;
    command_in(kind, &info)
}

/// A payload, under the terms of a device or a journal: its command with the low bits of its group's members, or the status of its
/// first fault.
pub fn decode(payload: &[u8], terms: Terms) -> Decoding
    ensures { result ≡ decode terms payload.now }
{
    match command_of(payload, terms) {
        Ok(found) => {
            let (command, members) = found;
            carried(command, members)
        }
        Err(status) => refused(status),
    }
}
