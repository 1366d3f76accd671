//! Commands.
ghost use Rattle.std.specs.Prelude.{◌≡◌, ◌++◌, codes};
ghost use Rattle.texts.specs.Commands.{ReadsCommand};
ghost use Rattle.texts.specs.declared.command.CommandFault.TheVariants.{Hex};

use crate::hex::{HexFault, read_hex};

/// Why a text is no command that can be carried out.
#[derive(Clone, Copy, PartialEq, Eq, Debug)]
pub enum CommandFault {
    /// it does not begin as a command does
    NoCommand,
    /// what follows is not one octet or more in hexadecimal, or more than the memory has
    Hex(HexFault),
}

impl From<HexFault> for CommandFault {
    ghost from_gives = { λ fault e. e ≡ Hex fault };

    fn from(fault: HexFault) -> CommandFault {
        CommandFault::Hex(fault)
    }
}

/// Reads the octets that a command hands in into the front of the memory, and gives their
/// number.
pub fn read_command(text: &[u8], memory: &mut [u8]) -> Result<usize, CommandFault>
    ensures { ReadsCommand text.now memory.old result memory.new }
{
    let [b'S', b' ', octets @ ..] = text else {
        return Err(CommandFault::NoCommand);
    };
    read_octets(octets, memory)
}

// Reads what stands behind the letter and the space.
fn read_octets(text: &[u8], memory: &mut [u8]) -> Result<usize, CommandFault>
    ensures { ReadsCommand (codes "S " ++ text.now) memory.old result memory.new }
{
    if text.is_empty() {
        return Err(CommandFault::Hex(HexFault::NotHex));
    }
    Ok(read_hex(text, memory)?)
}
