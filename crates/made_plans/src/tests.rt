use super::*;
use std::test::Fail;

/// The first and the last event, as texts, and how many there are.
#[test]
fn events_count_up(rt: HostRuntime) -> Result<(), Fail> {
    let alloc = rt.alloc();
    let draft = made_draft(alloc, 95)?;
    assert!(rt; draft.events.len() == 1_095);
    for (i, text) in [
        (
            0,
            "{\"event\":\"made\",\"properties\":{\"n\":95},\"uuid\":\"00000000-0000-0000-0000-000000000000\"}",
        ),
        (
            1_094,
            "{\"event\":\"made\",\"properties\":{\"n\":89},\"uuid\":\"00000000-0000-0000-0000-000000000446\"}",
        ),
    ] {
        let event = &draft.events[i];
        let shown = event.value.to_string(alloc)?;
        assert!(rt; shown.as_str() == text, "{text}");
        assert!(rt; event.size == text.len());
    }
    Ok(())
}
