use super::*;
use std::alloc::Global;
use std::test::Fail;

const UUID: &str = "018f3c5e-0000-7000-8000-000000000001";

/// What is read of a text: the uuids of its events, or the refusal.
fn read(alloc: Global, text: &str) -> Result<Result<Draft, DraftStop>, Fail> {
    match Draft::read(alloc, text.as_bytes()) {
        Err(DraftStop::OutOfMemory) => Err(Fail::from("memory")),
        answer => Ok(answer),
    }
}

#[test]
fn refusals(rt: HostRuntime) -> Result<(), Fail> {
    let alloc = rt.alloc();
    for (text, stop) in [
        ("{\"events\":[", DraftStop::NotJson),
        ("[]", DraftStop::NotAPlan),
        ("{\"events\":[{}]}", DraftStop::NotAPlan),
        (
            "{\"events\":[{}],\"functions\":[{\"name\":\"f\"}]}",
            DraftStop::NotAPlan,
        ),
        (
            "{\"events\":[],\"functions\":[{\"name\":\"f\",\"source\":\"\",\"filter\":null}]}",
            DraftStop::NotAPlan,
        ),
        (
            "{\"events\":[],\"functions\":[{\"name\":\"f\",\"source\":\"\",\"priority\":32768}]}",
            DraftStop::NotAPlan,
        ),
        (
            "{\"events\":[],\"functions\":[{\"name\":\"f\",\"source\":\"\",\"answers\":[{}]}]}",
            DraftStop::NotAPlan,
        ),
        (
            "{\"events\":[{}],\"functions\":[]}",
            DraftStop::Missing { event: 0 },
        ),
        (
            "{\"events\":[{\"uuid\":7}],\"functions\":[]}",
            DraftStop::Missing { event: 0 },
        ),
        (
            "{\"events\":[{\"uuid\":\"x\"}],\"functions\":[]}",
            DraftStop::BadUuid { event: 0 },
        ),
    ] {
        assert!(rt; read(alloc, text)?.err() == Some(stop), "{text}");
    }
    Ok(())
}
