//! The kinds of commands.

ghost use Rattle.std.specs.Prelude.{◌≡◌};
ghost use Rattle.command.specs.Kind.{kind_of};
ghost use Rattle.rules.specs.declared.Status.TheVariants.{Enotsup};

use rules::Status;

/// What a command does, by the value of CMD_TYPE.
#[derive(Clone, Copy, Debug, PartialEq, Eq)]
pub enum CommandKind {
    FlowAdd = 3,
    FlowMod = 4,
    FlowDel = 5,
    GroupAdd = 7,
    GroupMod = 8,
    GroupDel = 9,
}

/// A CMD_TYPE that names no command. It is answered ENOTSUP.
#[derive(Clone, Copy, Debug, PartialEq, Eq)]
pub struct UnknownCommand;

impl TryFrom<u64> for CommandKind {
    type Error = UnknownCommand;

    ghost try_from_gives = { λ number result. result ≡ kind_of number };

    fn try_from(number: u64) -> Result<CommandKind, UnknownCommand> {
        match number {
            3 => Ok(CommandKind::FlowAdd),
            4 => Ok(CommandKind::FlowMod),
            5 => Ok(CommandKind::FlowDel),
            7 => Ok(CommandKind::GroupAdd),
            8 => Ok(CommandKind::GroupMod),
            9 => Ok(CommandKind::GroupDel),
            _ => Err(UnknownCommand),
        }
    }
}

impl From<UnknownCommand> for Status {
    ghost from_gives = { λ _ status. status ≡ Enotsup };

    fn from(_: UnknownCommand) -> Status {
        Status::Enotsup
    }
}
