//! Access descriptors in octets.
ghost use Rattle.std.specs.Prelude.{◌≡◌};
ghost use Rattle.std.specs.Option.{option_to_list};
ghost use Rattle.terms.specs.Replies.{found_or};
ghost use Rattle.terms.specs.declared.refusal.Refusal.TheVariants as refusal;
ghost use Rattle.layouts.specs.Layout.{mode_code, information, descriptor_octets};
ghost use Rattle.layouts.specs.Reading.{active_from, priority_from, mode_from, descriptor_from};

use crate::memory::{InOctets, Measured};
use rules::{Descriptor, Functionality, Mode};
use terms::{Access, Refusal};

fn active_from(information: u8) -> Option<Mode>
    ensures { result ≡ active_from information }
{
    let (active, standby) = match information {
        1 => (Access::ThreeGpp, false),
        2 => (Access::ThreeGpp, true),
        3 => (Access::NonThreeGpp, false),
        4 => (Access::NonThreeGpp, true),
        _ => return None,
    };
    Some(Mode::ActiveStandby { active, standby })
}

// A `match`, since no proof is found for `ok()?`.
fn priority_from(information: u8) -> Option<Mode>
    ensures { result ≡ priority_from information }
{
    match Access::try_from(information) {
        Ok(first) => Some(Mode::Priority { first }),
        Err(_) => None,
    }
}

fn mode_from(code: u8, information: &[u8]) -> Option<Mode>
    ensures { result ≡ mode_from code information.now }
{
    match (code, information) {
        (1, [i]) => active_from(*i),
        (2, []) => Some(Mode::SmallestDelay),
        (3, [k @ 1..=11]) => Some(Mode::LoadBalancing { k: *k }),
        (4, [i]) => priority_from(*i),
        _ => None,
    }
}

pub(crate) fn read_descriptor(octets: &[u8]) -> Result<Descriptor, Refusal>
    ensures { result ≡ found_or (descriptor_from octets.now) refusal.Descriptor }
{
    let [length, functionality, mode, information @ ..] = octets else {
        return Err(Refusal::Descriptor);
    };
    if usize::from(*length) != octets.len() {
        return Err(Refusal::Descriptor);
    }
    Ok(Descriptor {
        functionality: Functionality::try_from(*functionality)?,
        mode: mode_from(*mode, information).ok_or(Refusal::Descriptor)?,
    })
}

// The octet that names the mode. It is no conversion, since a mode also has its information.
fn mode_code(mode: Mode) -> u8
    ensures { result ≡ mode_code mode }
{
    match mode {
        Mode::ActiveStandby { .. } => 1,
        Mode::SmallestDelay => 2,
        Mode::LoadBalancing { .. } => 3,
        Mode::Priority { .. } => 4,
    }
}

fn information_of(mode: Mode) -> Option<u8>
    ensures { option_to_list result ≡ information mode }
{
    match mode {
        Mode::ActiveStandby {
            active: Access::ThreeGpp,
            standby: false,
        } => Some(1),
        Mode::ActiveStandby {
            active: Access::ThreeGpp,
            standby: true,
        } => Some(2),
        Mode::ActiveStandby {
            active: Access::NonThreeGpp,
            standby: false,
        } => Some(3),
        Mode::ActiveStandby {
            active: Access::NonThreeGpp,
            standby: true,
        } => Some(4),
        Mode::SmallestDelay => None,
        Mode::LoadBalancing { k } => Some(k),
        Mode::Priority { first } => Some(u8::from(first)),
    }
}

impl InOctets for Descriptor {
    ghost octets = { descriptor_octets };

    fn place(&self, memory: &mut [u8], at: usize) -> usize {
        let functionality = u8::from(self.functionality);
        let mode = mode_code(self.mode);
        match information_of(self.mode) {
            Some(information) => [4, functionality, mode, information].place(memory, at),
            None => [3, functionality, mode].place(memory, at),
        }
    }
}

impl Measured for Descriptor {
    ghost most = { 4 };

    fn size(&self) -> usize {
        match information_of(self.mode) {
            Some(_) => 4,
            None => 3,
        }
    }
}
