//! Octets as text, and what commands are answered.
#[cfg(test)]
mod tests {
    use rules::Mode;
    use std::test::Fail;
    use terms::Access;
    use texts::{Hex, HexFault, Words, carry_out, read_hex};

    // A text, and the octets that it stands for.
    const PRINTED: [(&str, &[u8]); 3] = [
        ("", &[]),
        ("00", &[0]),
        (
            "0123456789ABCDEFF0",
            &[0x01, 0x23, 0x45, 0x67, 0x89, 0xAB, 0xCD, 0xEF, 0xF0],
        ),
    ];

    #[test]
    fn octets_there_and_back(rt: HostRuntime) -> Result<(), Fail> {
        let heap = rt.alloc();
        for (text, octets) in PRINTED {
            assert_eq!(rt; format!(in heap; "{}", Hex(octets))?.as_str(), text);
            let mut memory = vec![in heap; 0xEEu8; octets.len() + 1]?;
            assert_eq!(rt;
                read_hex(text.as_bytes(), memory.as_mut_slice())?,
                octets.len()
            );
            let mut wanted = octets.to_vec(heap)?;
            wanted.push(0xEE)?;
            assert!(rt; memory.as_slice() == wanted.as_slice());
        }
        Ok(())
    }

    // Texts that are not read into two octets of memory.
    const FAULTS: [(&str, HexFault); 9] = [
        ("0", HexFault::NotHex),
        ("000", HexFault::NotHex),
        ("0a", HexFault::NotHex),
        ("0G", HexFault::NotHex),
        ("/0", HexFault::NotHex),
        ("0:", HexFault::NotHex),
        ("@0", HexFault::NotHex),
        ("0102 3", HexFault::NotHex),
        ("010203", HexFault::NoRoom),
    ];

    #[test]
    fn texts_that_are_no_octets(rt: HostRuntime) -> Result<(), Fail> {
        for (text, wanted) in FAULTS {
            let mut memory = [0xEEu8; 2];
            let answer = read_hex(text.as_bytes(), &mut memory);
            assert_eq!(rt; answer, Err(wanted), "{}", text);
            assert!(rt; memory == [0xEE; 2]);
        }
        Ok(())
    }

    // A mode, and its words.
    const MODES: [(Mode, &str); 9] = [
        (
            Mode::ActiveStandby {
                active: Access::ThreeGpp,
                standby: false,
            },
            "active-standby, 3GPP alone",
        ),
        (
            Mode::ActiveStandby {
                active: Access::ThreeGpp,
                standby: true,
            },
            "active-standby, 3GPP with standby",
        ),
        (
            Mode::ActiveStandby {
                active: Access::NonThreeGpp,
                standby: false,
            },
            "active-standby, non-3GPP alone",
        ),
        (
            Mode::ActiveStandby {
                active: Access::NonThreeGpp,
                standby: true,
            },
            "active-standby, non-3GPP with standby",
        ),
        (Mode::SmallestDelay, "smallest delay"),
        (
            Mode::LoadBalancing { k: 11 },
            "load balancing, 0 percent over 3GPP",
        ),
        (Mode::LoadBalancing { k: 12 }, "load balancing, no share"),
        (
            Mode::Priority {
                first: Access::ThreeGpp,
            },
            "priority based, 3GPP first",
        ),
        (
            Mode::Priority {
                first: Access::NonThreeGpp,
            },
            "priority based, non-3GPP first",
        ),
    ];

    #[test]
    fn modes_in_words(rt: HostRuntime) -> Result<(), Fail> {
        for (mode, wanted) in MODES {
            let words = format!(in rt.alloc(); "{}", Words(mode))?;
            assert_eq!(rt; words.as_str(), wanted);
        }
        Ok(())
    }

    const NO_COMMAND: &str = "no command: S, one space and a sheet in hex";

    const NO_HEX: &str = "no hex: two of the digits 0-9 and A-F for each octet, one octet or more";

    const ANSWERS: [(&str, &str); 16] = [
        (
            "S 48490008050001010403030601000A",
            "ok\n heading [4849], length 2\n rule 0: precedence 5, match all; load balancing, 50 percent over 3GPP; ATSSS-LL\n written back [48490008050001010403030601000A], the same octets",
        ),
        (
            "S 000705000101030302010009",
            "ok\n heading [], length 0\n rule 0: precedence 5, match all; smallest delay; ATSSS-LL\n written back [000705000101030302010009], the same octets",
        ),
        ("S 00", "no 1 a sheet has 3 to 16384 octets"),
        ("S 000000", "no 2 a sheet has 1 to 128 rules"),
        (
            "S 0008050001010403030601000B",
            "no 3 the distance leads past the first octet of the sheet",
        ),
        ("S ", NO_HEX),
        ("S 0", NO_HEX),
        ("S 0a", NO_HEX),
        ("S  00", NO_HEX),
        ("S 00 ", NO_HEX),
        ("S 00\r", NO_HEX),
        ("", NO_COMMAND),
        ("S", NO_COMMAND),
        ("s 00", NO_COMMAND),
        ("S\t00", NO_COMMAND),
        (" S 00", NO_COMMAND),
    ];

    #[test]
    fn commands_are_answered(rt: HostRuntime) -> Result<(), Fail> {
        for (command, wanted) in ANSWERS {
            let answer = Words(carry_out(command.as_bytes()));
            assert_eq!(rt; format!(in rt.alloc(); "{answer}")?.as_str(), wanted);
        }
        Ok(())
    }

    // How many octets a command hands in, each of them 0, and the answer.
    const LONG: [(usize, &str); 3] = [
        (16384, "no 2 a sheet has 1 to 128 rules"),
        (16385, "no 1 a sheet has 3 to 16384 octets"),
        (40000, "no 1 a sheet has 3 to 16384 octets"),
    ];

    #[test]
    fn long_commands_are_answered(rt: HostRuntime) -> Result<(), Fail> {
        let heap = rt.alloc();
        for (size, wanted) in LONG {
            let mut command = String::from_str(heap, "S ")?;
            command.push_str("00".repeat(heap, size)?.as_str())?;
            let answer = Words(carry_out(command.as_bytes()));
            assert_eq!(rt; format!(in heap; "{answer}")?.as_str(), wanted, "{}", size);
            command.push_str("0")?;
            let answer = Words(carry_out(command.as_bytes()));
            assert_eq!(rt; format!(in heap; "{answer}")?.as_str(), NO_HEX, "{}", size);
        }
        Ok(())
    }
}
