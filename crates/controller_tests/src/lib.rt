// The worked cases of the controllers, step by step.
#![tactic(auto)]

#[cfg(test)]
mod tests {
    use arrivals::drain;
    use first_come::FirstCome;
    use interface::{Controller, Event, Kind, Request};
    use level::Level;
    use pair::Pair;
    use std::test::Fail;
    use turns::Turns;

    // The steps that are looked at.
    const STEPS: u32 = 500;

    fn request(slot: u16, domain: u8, bank: u8, kind: Kind) -> Request {
        Request {
            slot,
            domain,
            bank,
            kind,
        }
    }

    // The first step, from 0, in which the event comes, or 500.
    fn step_of<C: Controller>(controller: &mut C, wanted: Event) -> u32 {
        for step in 0..STEPS {
            let mut events = [Event::Issue(0); 64];
            let _ = controller.step();
            let count = drain(controller, &mut events);
            if events.iter().take(count).any(|event| *event == wanted) {
                return step;
            }
        }
        STEPS
    }

    // Two requests of domain 0, taken before step 0: the step in which the wanted event comes.
    fn second(rt: &HostRuntime, a: Request, b: Request, wanted: Event) -> Result<u32, Fail> {
        let mut controller = FirstCome::new(rt.alloc())?;
        let _ = controller.take(a);
        let _ = controller.take(b);
        Ok(step_of(&mut controller, wanted))
    }

    #[test]
    fn write_then_read(rt: HostRuntime) -> Result<(), Fail> {
        let a = request(0, 0, 0, Kind::Write);
        let b = request(1, 0, 1, Kind::Read);
        assert_eq!(rt; second(&rt, a, b, Event::Done(0))?, 23);
        assert_eq!(rt; second(&rt, a, b, Event::Issue(1))?, 18);
        assert_eq!(rt; second(&rt, a, b, Event::Done(1))?, 44);
        Ok(())
    }

    #[test]
    fn read_then_write(rt: HostRuntime) -> Result<(), Fail> {
        let a = request(0, 0, 0, Kind::Read);
        let b = request(1, 0, 1, Kind::Write);
        assert_eq!(rt; second(&rt, a, b, Event::Done(0))?, 26);
        assert_eq!(rt; second(&rt, a, b, Event::Issue(1))?, 9);
        assert_eq!(rt; second(&rt, a, b, Event::Done(1))?, 32);
        Ok(())
    }

    #[test]
    fn one_bank(rt: HostRuntime) -> Result<(), Fail> {
        let read = request(0, 0, 5, Kind::Read);
        let write = request(0, 0, 5, Kind::Write);
        assert_eq!(rt;
            second(&rt, read, request(1, 0, 5, Kind::Read), Event::Issue(1))?,
            39
        );
        assert_eq!(rt;
            second(&rt, write, request(1, 0, 5, Kind::Write), Event::Issue(1))?,
            46
        );
        Ok(())
    }

    #[test]
    fn five_reads(rt: HostRuntime) -> Result<(), Fail> {
        let mut controller = FirstCome::new(rt.alloc())?;
        for bank in 0..5u8 {
            let _ = controller.take(request(u16::from(bank), 0, bank, Kind::Read));
        }
        assert_eq!(rt; step_of(&mut controller, Event::Issue(4)), 20);
        Ok(())
    }

    #[test]
    fn turn_of_domain_1(rt: HostRuntime) -> Result<(), Fail> {
        let mut controller = Turns::new(rt.alloc())?;
        let _ = controller.take(request(64, 1, 0, Kind::Read));
        assert_eq!(rt; step_of(&mut controller, Event::Issue(64)), 46);
        assert_eq!(rt;
            step_of(&mut controller, Event::Done(64)),
            25,
            "counted on from step 47"
        );
        Ok(())
    }

    #[test]
    fn level_of_100(rt: HostRuntime) -> Result<(), Fail> {
        let below = FirstCome::new(rt.alloc())?;
        let mut controller = Level::new(rt.alloc(), below, 100)?;
        let _ = controller.take(request(0, 0, 0, Kind::Read));
        assert_eq!(rt; step_of(&mut controller, Event::Issue(0)), 0);
        assert_eq!(rt;
            step_of(&mut controller, Event::Done(0)),
            98,
            "counted on from step 1"
        );
        Ok(())
    }

    #[test]
    fn halves_of_a_pair(rt: HostRuntime) -> Result<(), Fail> {
        let first = FirstCome::new(rt.alloc())?;
        let second = Turns::new(rt.alloc())?;
        let mut controller = Pair::new(rt.alloc(), first, second)?;
        let _ = controller.take(request(64, 1, 3, Kind::Read));
        let _ = controller.take(request(65, 1, 4, Kind::Read));
        assert_eq!(rt; step_of(&mut controller, Event::Issue(64)), 0);
        assert_eq!(rt;
            step_of(&mut controller, Event::Issue(65)),
            45,
            "counted on from step 1"
        );
        Ok(())
    }
}
