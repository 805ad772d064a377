use super::*;
use std::alloc::Global;
use std::test::Fail;

#[test]
fn plans(rt: HostRuntime) -> Result<(), Fail> {
    let alloc = rt.alloc();
    for (text, jobs, broken, nulled) in [
        ("{\"events\":[],\"functions\":[]}", 0, 0, 0),
        (
            "{\"events\":[{\"uuid\":\"00000000000000000000000000000001\",\"event\":\"$pageview\",\"n\":1.5},{\"uuid\":\"{00000000-0000-0000-0000-000000000002}\",\"event\":\"other\"}],\"functions\":[{\"name\":\"f\",\"source\":\"\",\"inputs\":{\"x\":1e3},\"answers\":[{\"status\":200,\"body\":2.5}]},{\"name\":\"g\",\"source\":\"\",\"pattern\":\"^.page\",\"filter\":\"return event.n == null;\"},{\"name\":\"h\",\"source\":\"\",\"pattern\":\"^o\",\"filter\":\"fetch('https://h/');\"}]}",
            3,
            1,
            2,
        ),
    ] {
        let Ok(plan) = read_plan(alloc, text.as_bytes()) else {
            return Err(Fail::from("refused"));
        };
        assert_eq!(rt; plan.jobs.items().len(), jobs, "jobs of {text}");
        assert_eq!(rt; plan.broken.items().len(), broken, "broken runs of {text}");
        assert_eq!(rt; plan.nulled, nulled, "nulled numbers of {text}");
    }
    Ok(())
}

#[test]
fn refusals(rt: HostRuntime) -> Result<(), Fail> {
    let alloc = rt.alloc();
    for (text, stop) in [
        ("{\"events\":[", PlanStop::NotJson),
        (
            "{\"events\":[{\"uuid\":7}],\"functions\":[{\"name\":\"f\",\"source\":\"(\"}]}",
            PlanStop::Missing { event: 0 },
        ),
        (
            "{\"events\":[],\"functions\":[{\"name\":\"f\",\"source\":\"x := 1;\",\"filter\":\"foo();\",\"pattern\":\"(\"}]}",
            PlanStop::BadFunction {
                function: 0,
                stop: hog_program::BuildStop::AssignsUnknown { at: 0 },
            },
        ),
        (
            "{\"events\":[],\"functions\":[{\"name\":\"f\",\"source\":\"\",\"pattern\":\"(\"}]}",
            PlanStop::BadPattern { function: 0 },
        ),
    ] {
        assert!(rt;
            read_plan(alloc, text.as_bytes()).err() == Some(stop),
            "{text}"
        );
    }
    Ok(())
}
