//! Sheets that are accepted, and sheets that are refused.
#[cfg(test)]
mod tests {
    use crate::making::examples::{hex, many_rules, sheet_of, under_heading};
    use rules::{Component, Descriptor, Functionality, Mode};
    use sheets::{read, rewrite};
    use std::alloc::Global;
    use std::process::Abort;
    use std::test::Fail;
    use terms::{Access, Refusal};

    // Whether the sheet is accepted, or how it is refused. Reading and rewriting agree; an accepted
    // sheet is written back to the same octets, a refused one leaves the memory as it was.
    fn answer(rt: &impl Abort, heap: Global, sheet: &[u8]) -> Result<Result<(), Refusal>, Fail> {
        let mut memory = vec![in heap; 0xEEu8; sheet.len()]?;
        let untouched = vec![in heap; 0xEEu8; sheet.len()]?;
        let again = rewrite(sheet, memory.as_mut_slice()).map(|_| ());
        let found = read(sheet).map(|_| ());
        assert_eq!(rt; again, found);
        if found.is_ok() {
            assert!(rt; memory.as_slice() == sheet);
        } else {
            assert!(rt; memory.as_slice() == untouched.as_slice());
        }
        Ok(found)
    }

    const SHEETS: [(&str, &str, Result<(), Refusal>); 34] = [
        ("no octet", "", Err(Refusal::SheetSize)),
        ("two octets", "0100", Err(Refusal::SheetSize)),
        (
            "three octets with a count of 0",
            "000000",
            Err(Refusal::RuleCount),
        ),
        (
            "three octets with a distance past the first",
            "010001",
            Err(Refusal::Distance),
        ),
        (
            "three octets with a distance of 0",
            "010000",
            Err(Refusal::Frame),
        ),
        ("one rule", "0008050001010403030601000A", Ok(())),
        (
            "one rule under a heading",
            "48490008050001010403030601000A",
            Ok(()),
        ),
        (
            "a distance one too far",
            "0008050001010403030601000B",
            Err(Refusal::Distance),
        ),
        (
            "a distance of 0 behind a rule",
            "00080500010104030306010000",
            Err(Refusal::Frame),
        ),
        ("smallest delay", "000705000101030302010009", Ok(())),
        (
            "two rules",
            "0008050001010403030600080600010104030306020014",
            Ok(()),
        ),
        (
            "two rules counted and one there",
            "0008050001010403030602000A",
            Err(Refusal::Frame),
        ),
        (
            "no rule counted",
            "0008050001010403030600000A",
            Err(Refusal::RuleCount),
        ),
        (
            "128 rules counted and one there",
            "0008050001010403030680000A",
            Err(Refusal::Frame),
        ),
        (
            "129 rules counted",
            "0008050001010403030681000A",
            Err(Refusal::RuleCount),
        ),
        ("the size before the count", "0000", Err(Refusal::SheetSize)),
        (
            "the count before the distance",
            "00FFFF",
            Err(Refusal::RuleCount),
        ),
        (
            "one octet for a rule's length",
            "00010001",
            Err(Refusal::Frame),
        ),
        (
            "a rule of two octets",
            "00020500010004",
            Err(Refusal::Frame),
        ),
        (
            "a rule past the trailer",
            "0009050001010403030601000A",
            Err(Refusal::Frame),
        ),
        (
            "a descriptor left two octets",
            "0006050001010403010008",
            Err(Refusal::Frame),
        ),
        (
            "a descriptor left five octets",
            "000905000101040303060001000B",
            Err(Refusal::Frame),
        ),
        (
            "components past the rule",
            "000805FFFF010403030601000A",
            Err(Refusal::Frame),
        ),
        (
            "the frame before the component's type",
            "0006050001020403010008",
            Err(Refusal::Frame),
        ),
        (
            "an unknown type of component",
            "0008050001020403030601000A",
            Err(Refusal::ComponentType),
        ),
        (
            "match-all twice",
            "000905000201010403030601000B",
            Err(Refusal::Components),
        ),
        (
            "an unknown mode",
            "0008050001010403050601000A",
            Err(Refusal::Descriptor),
        ),
        (
            "the component before the descriptor",
            "0008050001020403050601000A",
            Err(Refusal::ComponentType),
        ),
        (
            "one precedence in two rules",
            "0008050001010403030600080500010104030306020014",
            Err(Refusal::Precedence),
        ),
        (
            "the descriptor before the precedence",
            "0008050001010403030600080500010104030506020014",
            Err(Refusal::Descriptor),
        ),
        (
            "the frame before the precedence",
            "0008050001010403030600090500010104030306020014",
            Err(Refusal::Frame),
        ),
        (
            "the first rule before the second",
            "0008050001010403050600080500010204030306020014",
            Err(Refusal::Descriptor),
        ),
        (
            "an octet before the trailer",
            "000805000101040303060001000B",
            Err(Refusal::Surplus),
        ),
        (
            "the precedence before the octet",
            "000805000101040303060008050001010403030600020015",
            Err(Refusal::Precedence),
        ),
    ];

    #[test]
    fn sheets_by_their_octets(rt: HostRuntime) -> Result<(), Fail> {
        let heap = rt.alloc();
        for (what, text, wanted) in SHEETS {
            let sheet = hex(heap, text)?;
            assert_eq!(rt; answer(&rt, heap, sheet.as_slice())?, wanted, "{}", what);
        }
        Ok(())
    }

    const SHARE_50: &str = "04030306";

    // The components of a rule.
    const COMPONENTS: [(&str, &str, Result<(), Refusal>); 47] = [
        ("match all", "01", Ok(())),
        ("IPv4", "10C0000200FFFFFF00", Ok(())),
        (
            "IPv6 with a prefix of 0 bits",
            "2120010DB800000000000000000000000000",
            Ok(()),
        ),
        (
            "IPv6 with a prefix of 128 bits",
            "2120010DB800000000000000000000000080",
            Ok(()),
        ),
        ("protocol", "3006", Ok(())),
        ("port", "5001BB", Ok(())),
        ("ports, low below high", "511F401F90", Ok(())),
        ("ports, low equal to high", "5101BB01BB", Ok(())),
        ("security parameter index", "6000C0FFEE", Ok(())),
        ("type of service", "70B8FC", Ok(())),
        ("flow label of 20 bits", "800FFFFF", Ok(())),
        (
            "all types but match-all",
            "10C0000200FFFFFF002120010DB8000000000000000000000000203006500050510050005160000001007028FC80000001",
            Ok(()),
        ),
        ("no component", "", Err(Refusal::Components)),
        ("IPv4 cut", "10C0000200FFFFFF", Err(Refusal::Frame)),
        (
            "IPv6 cut",
            "2120010DB8000000000000000000000000",
            Err(Refusal::Frame),
        ),
        ("protocol cut", "30", Err(Refusal::Frame)),
        ("port cut", "5001", Err(Refusal::Frame)),
        ("ports cut", "511F401F", Err(Refusal::Frame)),
        (
            "security parameter index cut",
            "6000C0FF",
            Err(Refusal::Frame),
        ),
        ("type of service cut", "70B8", Err(Refusal::Frame)),
        ("flow label cut", "800FFF", Err(Refusal::Frame)),
        ("the second component cut", "300650", Err(Refusal::Frame)),
        ("type 00", "00", Err(Refusal::ComponentType)),
        ("type 02", "02", Err(Refusal::ComponentType)),
        ("type 11", "11C0000200FFFFFF00", Err(Refusal::ComponentType)),
        (
            "type 20",
            "2020010DB800000000000000000000000000",
            Err(Refusal::ComponentType),
        ),
        ("type 52", "521F401F90", Err(Refusal::ComponentType)),
        ("type FF", "FF", Err(Refusal::ComponentType)),
        (
            "an unknown type behind a known one",
            "300631",
            Err(Refusal::ComponentType),
        ),
        (
            "the type before the room",
            "3102",
            Err(Refusal::ComponentType),
        ),
        (
            "a prefix of 129 bits",
            "2120010DB800000000000000000000000081",
            Err(Refusal::Value),
        ),
        ("low above high", "5101BC01BB", Err(Refusal::Value)),
        ("flow label with bit 20", "80100000", Err(Refusal::Value)),
        ("flow label with bit 23", "80800000", Err(Refusal::Value)),
        ("a type twice", "30063011", Err(Refusal::Components)),
        (
            "a type twice, one between",
            "30065000503011",
            Err(Refusal::Components),
        ),
        ("match-all twice", "0101", Err(Refusal::Components)),
        (
            "match-all before another",
            "013006",
            Err(Refusal::Components),
        ),
        (
            "match-all behind another",
            "300601",
            Err(Refusal::Components),
        ),
        ("the room before the clash", "300630", Err(Refusal::Frame)),
        (
            "the clash before the value",
            "8000000180100000",
            Err(Refusal::Components),
        ),
        (
            "a clash before a later value",
            "3006301180100000",
            Err(Refusal::Components),
        ),
        (
            "a clash before a later type",
            "3006301102",
            Err(Refusal::Components),
        ),
        (
            "a value before a later clash",
            "8010000030063011",
            Err(Refusal::Value),
        ),
        (
            "a value before a later type",
            "8010000002",
            Err(Refusal::Value),
        ),
        (
            "a type before a later value",
            "0280100000",
            Err(Refusal::ComponentType),
        ),
        (
            "a cut before a descriptor that is whole",
            "5001BB60",
            Err(Refusal::Frame),
        ),
    ];

    #[test]
    fn components_by_their_octets(rt: HostRuntime) -> Result<(), Fail> {
        let heap = rt.alloc();
        for (what, text, wanted) in COMPONENTS {
            let sheet = sheet_of(heap, text, SHARE_50)?;
            assert_eq!(rt; answer(&rt, heap, sheet.as_slice())?, wanted, "{}", what);
        }
        Ok(())
    }

    // Components before a descriptor of an unknown mode.
    const BEFORE_DESCRIPTOR: [(&str, &str, Result<(), Refusal>); 4] = [
        ("no component", "", Err(Refusal::Components)),
        ("a component cut off", "5001", Err(Refusal::Frame)),
        ("a value out of range", "5101BC01BB", Err(Refusal::Value)),
        ("a good component", "01", Err(Refusal::Descriptor)),
    ];

    #[test]
    fn components_before_the_descriptor(rt: HostRuntime) -> Result<(), Fail> {
        let heap = rt.alloc();
        for (what, text, wanted) in BEFORE_DESCRIPTOR {
            let sheet = sheet_of(heap, text, "04030506")?;
            assert_eq!(rt; answer(&rt, heap, sheet.as_slice())?, wanted, "{}", what);
        }
        Ok(())
    }

    const SAID: [(&str, Component); 9] = [
        ("01", Component::MatchAll),
        (
            "10C0000200FFFFFF00",
            Component::Ipv4 {
                address: 0xC0000200,
                mask: 0xFFFFFF00,
            },
        ),
        (
            "2120010DB800000000000000000000000120",
            Component::Ipv6 {
                address: 0x20010DB8000000000000000000000001,
                prefix: 32,
            },
        ),
        ("3006", Component::Protocol { number: 6 }),
        ("5001BB", Component::Port { number: 443 }),
        (
            "511F401F90",
            Component::PortRange {
                low: 8000,
                high: 8080,
            },
        ),
        ("6000C0FFEE", Component::SecurityIndex { index: 0xC0FFEE }),
        (
            "70B8FC",
            Component::ServiceType {
                value: 0xB8,
                mask: 0xFC,
            },
        ),
        ("80012345", Component::FlowLabel { label: 0x12345 }),
    ];

    #[test]
    fn components_by_what_they_say(rt: HostRuntime) -> Result<(), Fail> {
        let heap = rt.alloc();
        for (text, component) in SAID {
            let sheet = sheet_of(heap, text, SHARE_50)?;
            let found = read(sheet.as_slice())?;
            let rule = found.rules.rule(0)?;
            let components = rule.components.as_slice();
            assert!(rt; components.len() == 1);
            assert_eq!(rt; components[0], component);
        }
        Ok(())
    }

    // The descriptor of a match-all rule.
    const DESCRIPTORS: [(&str, &str, Result<(), Refusal>); 27] = [
        ("smallest delay", "030302", Ok(())),
        (
            "smallest delay with information",
            "04030201",
            Err(Refusal::Descriptor),
        ),
        (
            "load balancing with no information",
            "030303",
            Err(Refusal::Descriptor),
        ),
        ("k of 0", "04030300", Err(Refusal::Descriptor)),
        ("k of 1", "04030301", Ok(())),
        ("k of 11", "0403030B", Ok(())),
        ("k of 12", "0403030C", Err(Refusal::Descriptor)),
        ("active-standby 0", "04030100", Err(Refusal::Descriptor)),
        ("active-standby 1", "04030101", Ok(())),
        ("active-standby 4", "04030104", Ok(())),
        ("active-standby 5", "04030105", Err(Refusal::Descriptor)),
        (
            "active-standby with no information",
            "030301",
            Err(Refusal::Descriptor),
        ),
        ("priority 0", "04030400", Err(Refusal::Descriptor)),
        ("priority 1", "04030401", Ok(())),
        ("priority 2", "04030402", Ok(())),
        ("priority 3", "04030403", Err(Refusal::Descriptor)),
        ("mode 0", "04030001", Err(Refusal::Descriptor)),
        ("mode 5", "04030501", Err(Refusal::Descriptor)),
        ("functionality 0", "04000306", Err(Refusal::Descriptor)),
        ("functionality 1", "04010306", Ok(())),
        ("functionality 2", "04020306", Ok(())),
        ("functionality 4", "04040306", Err(Refusal::Descriptor)),
        (
            "a length of 3 over four octets",
            "03030306",
            Err(Refusal::Descriptor),
        ),
        (
            "a length of 5 over four octets",
            "05030306",
            Err(Refusal::Descriptor),
        ),
        (
            "a length of 4 over three octets",
            "040302",
            Err(Refusal::Descriptor),
        ),
        ("a length of 0", "00030306", Err(Refusal::Descriptor)),
        ("two octets", "0403", Err(Refusal::Frame)),
    ];

    #[test]
    fn descriptors_by_their_octets(rt: HostRuntime) -> Result<(), Fail> {
        let heap = rt.alloc();
        for (what, text, wanted) in DESCRIPTORS {
            let sheet = sheet_of(heap, "01", text)?;
            assert_eq!(rt; answer(&rt, heap, sheet.as_slice())?, wanted, "{}", what);
        }
        Ok(())
    }

    const STEERED: [(&str, Functionality, Mode); 8] = [
        (
            "04010101",
            Functionality::OnlyOne,
            Mode::ActiveStandby {
                active: Access::ThreeGpp,
                standby: false,
            },
        ),
        (
            "04020102",
            Functionality::Mptcp,
            Mode::ActiveStandby {
                active: Access::ThreeGpp,
                standby: true,
            },
        ),
        (
            "04030103",
            Functionality::AtsssLl,
            Mode::ActiveStandby {
                active: Access::NonThreeGpp,
                standby: false,
            },
        ),
        (
            "04030104",
            Functionality::AtsssLl,
            Mode::ActiveStandby {
                active: Access::NonThreeGpp,
                standby: true,
            },
        ),
        ("030302", Functionality::AtsssLl, Mode::SmallestDelay),
        (
            "0402030B",
            Functionality::Mptcp,
            Mode::LoadBalancing { k: 11 },
        ),
        (
            "04030401",
            Functionality::AtsssLl,
            Mode::Priority {
                first: Access::ThreeGpp,
            },
        ),
        (
            "04030402",
            Functionality::AtsssLl,
            Mode::Priority {
                first: Access::NonThreeGpp,
            },
        ),
    ];

    #[test]
    fn descriptors_by_what_they_say(rt: HostRuntime) -> Result<(), Fail> {
        let heap = rt.alloc();
        for (text, functionality, mode) in STEERED {
            let sheet = sheet_of(heap, "01", text)?;
            let found = read(sheet.as_slice())?;
            let rule = found.rules.rule(0)?;
            assert_eq!(rt;
                rule.descriptor,
                Descriptor {
                    functionality,
                    mode,
                }
            );
        }
        Ok(())
    }

    // How many rules, the precedence of the last, and the answer.
    const MANY: [(u8, u8, Result<(), Refusal>); 6] = [
        (1, 0, Ok(())),
        (2, 0, Err(Refusal::Precedence)),
        (128, 127, Ok(())),
        (128, 0, Err(Refusal::Precedence)),
        (128, 255, Ok(())),
        (129, 128, Err(Refusal::RuleCount)),
    ];

    #[test]
    fn sheets_by_their_count(rt: HostRuntime) -> Result<(), Fail> {
        let heap = rt.alloc();
        for (count, last, wanted) in MANY {
            let sheet = many_rules(heap, count, last)?;
            assert_eq!(rt; answer(&rt, heap, sheet.as_slice())?, wanted, "{}", count);
        }
        Ok(())
    }

    // How many octets of heading, and the answer: 13 octets follow it.
    const HEADINGS: [(usize, Result<(), Refusal>); 4] = [
        (0, Ok(())),
        (1000, Ok(())),
        (16371, Ok(())),
        (16372, Err(Refusal::SheetSize)),
    ];

    #[test]
    fn sheets_by_their_heading(rt: HostRuntime) -> Result<(), Fail> {
        let heap = rt.alloc();
        for (length, wanted) in HEADINGS {
            let sheet = under_heading(heap, length)?;
            assert_eq!(rt; answer(&rt, heap, sheet.as_slice())?, wanted, "{}", length);
            if wanted.is_ok() {
                assert_eq!(rt; read(sheet.as_slice())?.heading, length);
            }
        }
        Ok(())
    }
}
