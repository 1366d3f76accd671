//! Sets that are written, looked at and compared.
#[cfg(test)]
mod tests {
    use crate::making::examples::{ONE_RULE, hex};
    use layouts::{
        Precedences, read_rule, rule_size, rules_size, write_octets, write_rule, write_rules,
    };
    use rules::{Component, Components, Rule, Rules};
    use sheets::{read, rewrite, write};
    use std::test::Fail;
    use terms::Refusal;

    // Octets of heading, octets of memory, and the answer.
    const ROOMS: [(usize, usize, Result<(), Refusal>); 8] = [
        (0, 12, Err(Refusal::Memory)),
        (0, 13, Ok(())),
        (0, 20, Ok(())),
        (2, 14, Err(Refusal::Memory)),
        (2, 15, Ok(())),
        (16371, 16384, Ok(())),
        (16371, 16383, Err(Refusal::Memory)),
        (16372, 17000, Err(Refusal::Memory)),
    ];

    #[test]
    fn written_into_memory(rt: HostRuntime) -> Result<(), Fail> {
        let heap = rt.alloc();
        let sheet = hex(heap, ONE_RULE)?;
        let found = read(sheet.as_slice())?;
        for (length, room, fits) in ROOMS {
            let heading = vec![in heap; 0x48u8; length]?;
            let mut memory = vec![in heap; 0xEEu8; room]?;
            let mut wanted = Vec::new(heap);
            let answer = write(&found.rules, heading.as_slice(), memory.as_mut_slice());
            assert_eq!(rt; answer, fits.map(|_| heading.len() + 13), "{}", room);
            if fits.is_ok() {
                wanted.extend_from_slice(heading.as_slice())?;
                wanted.extend_from_slice(sheet.as_slice())?;
            }
            wanted.resize(room, 0xEE)?;
            assert!(rt; memory.as_slice() == wanted.as_slice(), "{}", room);
        }
        Ok(())
    }

    // Octets of memory, and whether a sheet of 13 octets is written again into it.
    const AGAIN: [(usize, Result<(), Refusal>); 3] = [
        (12, Err(Refusal::Memory)),
        (13, Ok(())),
        (16, Ok(())),
    ];

    #[test]
    fn rewritten_into_memory(rt: HostRuntime) -> Result<(), Fail> {
        let heap = rt.alloc();
        let sheet = hex(heap, ONE_RULE)?;
        for (room, fits) in AGAIN {
            let mut memory = vec![in heap; 0xEEu8; room]?;
            let mut wanted = Vec::new(heap);
            let answer = rewrite(sheet.as_slice(), memory.as_mut_slice()).map(|_| ());
            assert_eq!(rt; answer, fits, "{}", room);
            if fits.is_ok() {
                wanted.extend_from_slice(sheet.as_slice())?;
            }
            wanted.resize(room, 0xEE)?;
            assert!(rt; memory.as_slice() == wanted.as_slice(), "{}", room);
        }
        Ok(())
    }

    #[test]
    fn written_from_a_place_on(rt: HostRuntime) {
        let mut memory = [0xEE; 6];
        assert_eq!(rt; write_octets(&[1, 2, 3], &mut memory, 2), Ok(5));
        assert!(rt; memory == [0xEE, 0xEE, 1, 2, 3, 0xEE]);
        assert_eq!(rt; write_octets(&[3], &mut memory, 5), Ok(6));
        for place in [4, 6, 7, usize::MAX] {
            let answer = write_octets(&[4, 5, 6], &mut memory, place);
            assert_eq!(rt; answer, Err(Refusal::Memory), "{}", place);
        }
        assert!(rt; memory == [0xEE, 0xEE, 1, 2, 3, 3]);
    }

    // A match-all rule of precedence 5 and 10 octets.
    const RULE: &str = "00080500010104030306";

    #[test]
    fn lists_are_filled(rt: HostRuntime) -> Result<(), Fail> {
        let octets = hex(rt.alloc(), RULE)?;
        let rule = read_rule(octets.as_slice(), &Precedences::none())?.rule;
        let mut components = Components::none();
        for number in 0..8 {
            assert_eq!(rt; components.push(Component::Protocol { number }), Ok(()));
        }
        assert_eq!(rt;
            components.push(Component::MatchAll),
            Err(Refusal::Components)
        );
        let kept = components.as_slice();
        assert_eq!(rt; kept.len(), 8);
        assert_eq!(rt; kept[7], Component::Protocol { number: 7 });
        let mut rules = Rules::none();
        for precedence in 0..128 {
            assert_eq!(rt; rules.push(Rule { precedence, ..rule }), Ok(()));
        }
        assert_eq!(rt; rules.push(rule), Err(Refusal::RuleCount));
        let last = rules.as_slice().last().map(|rule| rule.precedence);
        assert_eq!(rt; last, Some(127));
        assert_eq!(rt; rules_size(&rules), 1280);
        Ok(())
    }

    #[test]
    fn rules_in_a_row(rt: HostRuntime) -> Result<(), Fail> {
        let octets = hex(rt.alloc(), RULE)?;
        let rule = read_rule(octets.as_slice(), &Precedences::none())?.rule;
        let mut rules = Rules::none();
        rules.push(rule)?;
        rules.push(rule)?;
        let mut memory = [0xEE; 32];
        assert_eq!(rt; rule_size(&rule), 10);
        assert_eq!(rt; write_rule(&rule, &mut memory, 1), Ok(11));
        assert_eq!(rt; write_rules(&rules, &mut memory, 11), Ok(31));
        assert_eq!(rt; write_rule(&rule, &mut memory, 23), Err(Refusal::Memory));
        for place in [1, 11, 21] {
            assert!(rt;
                &memory[place..place + 10] == octets.as_slice(),
                "{}",
                place
            );
        }
        assert!(rt; memory[0] == 0xEE && memory[31] == 0xEE);
        Ok(())
    }

    #[test]
    fn rules_by_position(rt: HostRuntime) -> Result<(), Fail> {
        let sheet = hex(rt.alloc(), "0008050001010403030600080600010104030306020014")?;
        let found = read(sheet.as_slice())?;
        assert_eq!(rt; found.rules.rules().len(), 2);
        assert_eq!(rt; found.rules.rule(0)?.precedence, 5);
        assert_eq!(rt; found.rules.rule(1)?.precedence, 6);
        for position in [2, 127, 128, usize::MAX] {
            assert_eq!(rt;
                found.rules.rule(position),
                Err(Refusal::Unknown),
                "{}",
                position
            );
        }
        Ok(())
    }

    // Two sheets, and whether their sets say the same.
    const COMPARED: [(&str, &str, bool); 6] = [
        (
            "0008050001010403030601000A",
            "48490008050001010403030601000A",
            true,
        ),
        (
            "0008050001010403030601000A",
            "0008060001010403030601000A",
            false,
        ),
        (
            "0008050001010403030601000A",
            "0008050001010403030701000A",
            false,
        ),
        (
            "0008050001010403030601000A",
            "000905000230060403030601000B",
            false,
        ),
        (
            "000C05000530065000500403030601000E",
            "000C05000550005030060403030601000E",
            false,
        ),
        (
            "0008050001010403030600080600010104030306020014",
            "0008060001010403030600080500010104030306020014",
            false,
        ),
    ];

    #[test]
    fn sets_are_compared(rt: HostRuntime) -> Result<(), Fail> {
        let heap = rt.alloc();
        for (left, right, same) in COMPARED {
            let left = hex(heap, left)?;
            let right = hex(heap, right)?;
            let (left, right) = (read(left.as_slice())?, read(right.as_slice())?);
            assert!(rt; left.rules == left.rules);
            assert_eq!(rt; left.rules == right.rules, same);
        }
        Ok(())
    }
}
