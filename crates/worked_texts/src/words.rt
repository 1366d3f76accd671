//! The shared words: accesses, pairs, shares and refusals.
#[cfg(test)]
mod tests {
    use rules::Mode;
    use std::test::Fail;
    use terms::{Access, Pair, Refusal};

    #[test]
    fn accesses_by_their_codes(rt: HostRuntime) -> Result<(), Fail> {
        assert_eq!(rt; Access::try_from(1)?, Access::ThreeGpp);
        assert_eq!(rt; Access::try_from(2)?, Access::NonThreeGpp);
        for code in [0, 3, 255] {
            assert_eq!(rt; Access::try_from(code), Err(Refusal::Unknown), "{}", code);
        }
        Ok(())
    }

    #[test]
    fn pairs_hold_one_thing_for_each(rt: HostRuntime) {
        let mut pair = Pair {
            first: 10u64,
            second: 20,
        };
        pair.put(Access::NonThreeGpp, 30);
        assert_eq!(rt; *pair.at(Access::ThreeGpp), 10);
        assert_eq!(rt; *pair.at(Access::NonThreeGpp), 30);
        pair.put(Access::ThreeGpp, 40);
        assert_eq!(rt; *pair.at(Access::ThreeGpp), 40);
        assert_eq!(rt; *pair.at(Access::NonThreeGpp), 30);
    }

    // The information of load balancing, and the share.
    const BALANCED: [(u8, Option<u8>); 14] = [
        (0, None),
        (1, Some(100)),
        (2, Some(90)),
        (3, Some(80)),
        (4, Some(70)),
        (5, Some(60)),
        (6, Some(50)),
        (7, Some(40)),
        (8, Some(30)),
        (9, Some(20)),
        (10, Some(10)),
        (11, Some(0)),
        (12, None),
        (255, None),
    ];

    #[test]
    fn shares_by_k(rt: HostRuntime) {
        for (k, share) in BALANCED {
            assert_eq!(rt; Mode::LoadBalancing { k }.share(), share, "{}", k);
        }
        let first = Access::NonThreeGpp;
        let (active, standby) = (first, true);
        assert_eq!(rt; Mode::Priority { first }.share(), Some(50));
        assert_eq!(rt; Mode::SmallestDelay.share(), None);
        assert_eq!(rt; Mode::ActiveStandby { active, standby }.share(), None);
    }

    const REFUSALS: [(Refusal, u8, &str); 23] = [
        (Refusal::SheetSize, 1, "a sheet has 3 to 16384 octets"),
        (Refusal::RuleCount, 2, "a sheet has 1 to 128 rules"),
        (
            Refusal::Distance,
            3,
            "the distance leads past the first octet of the sheet",
        ),
        (
            Refusal::Frame,
            4,
            "a rule, a component or a descriptor does not fit its place",
        ),
        (Refusal::ComponentType, 5, "unknown type of component"),
        (
            Refusal::Components,
            6,
            "a rule has no component, a type twice, or match-all beside another",
        ),
        (Refusal::Value, 7, "the component's value is out of range"),
        (
            Refusal::Descriptor,
            8,
            "the access descriptor has a wrong length, functionality, mode or information",
        ),
        (
            Refusal::Precedence,
            9,
            "the precedence stands in an earlier rule",
        ),
        (
            Refusal::Surplus,
            10,
            "octets are left over before the trailer",
        ),
        (
            Refusal::Memory,
            11,
            "the memory is too short, or the sheet is over 16384 octets",
        ),
        (Refusal::NoPacket, 12, "the octets are no packet"),
        (Refusal::NoRule, 13, "no rule in force matches the packet"),
        (Refusal::LineDown, 14, "the line is down"),
        (Refusal::Length, 15, "the length is 0 or over the longest"),
        (Refusal::Limit, 16, "the limit is reached"),
        (Refusal::NoLine, 17, "no line that the rule admits is able"),
        (Refusal::Unknown, 18, "unknown code or position"),
        (Refusal::Delay, 19, "the delay is too large"),
        (
            Refusal::Request,
            20,
            "the request number is above 63 or given before",
        ),
        (
            Refusal::Answer,
            21,
            "another transaction, a request not sent, or one answered before",
        ),
        (
            Refusal::AnswerTime,
            22,
            "the answer is before the start or too late",
        ),
        (Refusal::AnswersMissing, 23, "an answer is missing"),
    ];

    #[test]
    fn refusals_by_number_and_words(rt: HostRuntime) -> Result<(), Fail> {
        for (refusal, number, words) in REFUSALS {
            assert_eq!(rt; refusal.number(), number);
            assert_eq!(rt; format!(in rt.alloc(); "{refusal}")?.as_str(), words);
        }
        Ok(())
    }
}
